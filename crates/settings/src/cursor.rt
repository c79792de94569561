// A place in a settings file, from which counts and entries are taken one after another.
ghost use Rattle.std.specs.Prelude.{◌≡◌, ℕ, ◌+◌, ◌<◌, ◌≤◌, Bool, ◌==◌, length, map, true, IfOk, OnOk, OnErr};
ghost use Rattle.base.specs.Faults.{in_numbers};
ghost use Rattle.entries.specs.Values.{Numbered, cause_number, fault_of};
ghost use Rattle.file_format.specs.File.{count};
ghost use Rattle.settings.specs.Sections.{section_number};
ghost use Rattle.settings.specs.Taken.{entry_at, one_more, taken};

use crate::section::FileSection;
use base::bounded::BoundedList;
use entries::entry::Entry;
use entries::fault::{Cause, FileFault, Place};

#[derive(Drop)]
pub(crate) struct Cursor<'a> {
    file: &'a [u8],
    // the next byte
    at: usize,
    ghost inside: { at ≤ length file.now },
}

impl<'a> Cursor<'a> {
    pub(crate) fn new(file: &'a [u8]) -> Cursor<'a>
        ensures { (result.file.now ≡ file.now) × (result.at ≡ 0) }
    {
        Cursor { file, at: 0 }
    }

    pub(crate) fn is_at_end(&self) -> bool
        ensures { result ≡ (length self.now.file.now == self.now.at) }
    {
        self.at == self.file.len()
    }

    // The file's fault at the next byte.
    pub(crate) fn fault<F>(&self, fault: F, section: FileSection, entry: usize) -> FileFault
    where
        Cause: From<F>,
        ensures cause { ⟦<Cause as From<F>>⟧.from_gives fault result.cause }
        ensures place { result.place ≡ record { section = section_number section; entry = entry; byte = self.now.at } }
    {
        FileFault::from((fault, Place::new(u8::from(section), entry, self.at)))
    }

    // Takes the count with which a section begins; `wrong` is the fault of one that is not `ok`.
    pub(crate) fn count<F: FnOnce(u8) -> bool>(
        &mut self,
        section: FileSection,
        wrong: Cause,
        ok: F,
    ) -> Result<u8, FileFault>
        requires { F.IsAlwaysCallable ok }
        ensures file { self.new.file.now ≡ self.old.file.now }
        ensures ok { IfOk result (λ n. F.post ok n true) }
        ensures value { (p : ℕ → Bool) → ((n : ℕ) (r : Bool) → F.post ok n r → r ≡ p n) → in_numbers (taken (λ n. n) self.new.at) fault_of result ≡ count self.old.file.now (section_number section) (cause_number wrong) p self.old.at }
    {
        let Some(&n) = self.file.get(self.at) else {
            return Err(self.fault(Cause::Missing, section, 0));
        };
        if !ok(n) {
            return Err(self.fault(wrong, section, 0));
        }
        self.at += 1;
        Ok(n)
    }

    // Takes the next entry of a section, which is its entry number `entry`.
    pub(crate) fn entry<E: Entry<'a>>(
        &mut self,
        section: FileSection,
        entry: usize,
    ) -> Result<E, FileFault>
    where
        Cause: From<E::Fault>,
        requires numbered { Numbered E.fault_number ⟦<Cause as From<E::Fault>>⟧.from_gives }
        ensures file { self.new.file.now ≡ self.old.file.now }
        ensures value { in_numbers (taken E.meaning self.new.at) fault_of result ≡ entry_at self.old.file.now E.at_front (section_number section) entry self.old.at }
    {
        // No `map_err`: tried, a closure whose argument is an `E::Fault` is not supported yet.
        match E::read(&self.file[self.at..]) {
            Ok((found, size)) => {
                self.at += size;
                Ok(found)
            }
            Err(fault) => Err(self.fault(fault, section, entry)),
        }
    }

    // Takes the next entry of a section, at the end of the list of those before it.
    pub(crate) fn push<E: Entry<'a>, const N: usize>(
        &mut self,
        section: FileSection,
        list: &mut BoundedList<E, N>,
    ) -> Result<(), FileFault>
    where
        Cause: From<E::Fault>,
        requires numbered { Numbered E.fault_number ⟦<Cause as From<E::Fault>>⟧.from_gives }
        requires room { length list.old < N }
        ensures file { self.new.file.now ≡ self.old.file.now }
        ensures value { in_numbers (taken (λ _. map E.meaning list.new) self.new.at) fault_of result ≡ one_more self.old.file.now E.at_front (section_number section) (map E.meaning list.old) self.old.at }
        ensures len { OnOk result (length list.new ≡ length list.old + 1) }
        ensures err { OnErr result (list.new ≡ list.old) }
    {
        let entry = self.entry(section, list.len() + 1)?;
        list.push(entry).unwrap();
        Ok(())
    }
}
