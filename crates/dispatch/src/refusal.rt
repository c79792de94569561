// Why a release or a tick is refused.
ghost use Rattle.std.specs.Prelude.{◌≡◌, Some};
ghost use Rattle.dispatch.specs.Refusals.{refusal_number, refusal_text};

use std::fmt;

#[derive(Clone, Copy, PartialEq, Eq, Debug)]
pub enum Refusal {
    // the model does not hold as many tasks as the table
    OtherTasks,
    NoSuchTask,
    // the work is not from 1 to the wcet of the task
    WorkOutOfRange,
    // the log has no place behind the jobs entered
    LogFull,
    // the model does not allow one more release now
    TooManyReleases,
    // the log does not hold the jobs entered
    LogTooShort,
    // the clock is at 1,000,000,000
    ClockAtEnd,
}

impl From<Refusal> for u8 {
    ghost from_gives = { λ f n. n ≡ refusal_number f };

    fn from(f: Refusal) -> u8 {
        match f {
            Refusal::OtherTasks => 41,
            Refusal::NoSuchTask => 42,
            Refusal::WorkOutOfRange => 43,
            Refusal::LogFull => 44,
            Refusal::TooManyReleases => 45,
            Refusal::LogTooShort => 46,
            Refusal::ClockAtEnd => 47,
        }
    }
}

impl fmt::Display for Refusal {
    ghost output = { λ f. Some (refusal_text f) };

    fn fmt<W: fmt::Write>(&self, f: &mut fmt::Formatter<W>) -> fmt::Result {
        let number = u8::from(*self);
        write!(f, "refused {number}")
    }
}
