// Why a question about a table is refused.
ghost use Rattle.std.specs.Prelude.{◌≡◌, Some};
ghost use Rattle.analysis.specs.Refusals.{refusal_number, refusal_text};

use std::fmt;

#[derive(Clone, Copy, PartialEq, Eq, Debug)]
pub enum Refusal {
    // the model does not hold as many tasks as the table
    OtherTasks,
    NoSuchTask,
    // k is not from 1 to 1,000
    JobsOutOfRange,
    // the span is above 1,000,000,000
    SpanTooLong,
    // no busy window of the task's level ends within 1,000,000 ticks
    NoBusyWindow,
    // jobs can be late without any overload
    TypicalMisses,
    // more than six tasks have overload
    TooManySources,
    TooFewCells,
}

impl From<Refusal> for u8 {
    ghost from_gives = { λ f n. n ≡ refusal_number f };

    fn from(f: Refusal) -> u8 {
        match f {
            Refusal::OtherTasks => 30,
            Refusal::NoSuchTask => 31,
            Refusal::JobsOutOfRange => 32,
            Refusal::SpanTooLong => 33,
            Refusal::NoBusyWindow => 35,
            Refusal::TypicalMisses => 36,
            Refusal::TooManySources => 37,
            Refusal::TooFewCells => 38,
        }
    }
}

impl fmt::Display for Refusal {
    ghost output = { λ f. Some (refusal_text f) };

    fn fmt<W: fmt::Write>(&self, f: &mut fmt::Formatter<W>) -> fmt::Result {
        let number = u8::from(*self);
        write!(f, "refused {number}")
    }
}
