// The numbers of the causes of faults.
ghost use Rattle.std.specs.Prelude.{◌≡◌};
ghost use Rattle.entries.specs.Values.{cause_number};

use crate::fault::Cause;
use pjd::curve::CurveFault;
use staircase::stairs::StaircaseFault;
use tables::task::TaskFault;

impl From<Cause> for u8 {
    ghost from_gives = { λ f n. n ≡ cause_number f };

    fn from(cause: Cause) -> u8 {
        match cause {
            Cause::Missing => 11,
            Cause::TaskCount => 12,
            Cause::Task(TaskFault::OutOfRange) => 13,
            Cause::CurveCount => 14,
            Cause::Curve(CurveFault::OutOfRange) => 15,
            Cause::StaircaseCount => 16,
            Cause::Staircase(StaircaseFault::Head) => 17,
            Cause::Staircase(StaircaseFault::Missing) => 11,
            Cause::Staircase(StaircaseFault::Points) => 18,
            Cause::QuestionCount => 19,
            Cause::Trailing => 20,
        }
    }
}
