// The sections of a settings file, as a fault's place numbers them.
ghost use Rattle.std.specs.Prelude.{◌≡◌};
ghost use Rattle.settings.specs.Sections.{section_number};

#[derive(Clone, Copy)]
pub(crate) enum FileSection {
    Tasks,
    Curves,
    Staircases,
    Questions,
    // behind the last question
    Rest,
}

impl From<FileSection> for u8 {
    ghost from_gives = { λ s n. n ≡ section_number s };

    fn from(section: FileSection) -> u8 {
        match section {
            FileSection::Tasks => 1,
            FileSection::Curves => 2,
            FileSection::Staircases => 3,
            FileSection::Questions => 4,
            FileSection::Rest => 5,
        }
    }
}
