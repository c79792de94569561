// The first fault of a settings file.
ghost use Rattle.std.specs.Prelude.{◌≡◌};
ghost use Rattle.entries.specs.declared.fault.Cause.TheVariants.{Task as InTask, Curve as InCurve, Staircase as InStaircase};

use pjd::curve::CurveFault;
use staircase::stairs::StaircaseFault;
use tables::task::TaskFault;

// What is wrong. The fault of a task, a curve or a staircase is kept whole.
#[derive(Clone, Copy)]
pub enum Cause {
    // the file ends before the count or the record
    Missing,
    TaskCount,
    Task(TaskFault),
    CurveCount,
    Curve(CurveFault),
    StaircaseCount,
    Staircase(StaircaseFault),
    QuestionCount,
    // the file goes on behind its last question
    Trailing,
}

// Where: the section, the entry, numbered from 1 (0 is the section's count), and the offset of its first byte.
#[derive(Clone, Copy, PartialEq, Eq, Debug)]
pub struct Place {
    // a number, since `new` takes any from its callers
    pub section: u8,
    pub entry: usize,
    pub byte: usize,
}

impl Place {
    pub fn new(section: u8, entry: usize, byte: usize) -> Place
        ensures { result ≡ record { section = section; entry = entry; byte = byte } }
    {
        Place {
            section,
            entry,
            byte,
        }
    }
}

#[derive(Clone, Copy)]
pub struct FileFault {
    pub cause: Cause,
    pub place: Place,
}

impl From<TaskFault> for Cause {
    ghost from_gives = { λ f r. r ≡ InTask f };

    fn from(f: TaskFault) -> Cause {
        Cause::Task(f)
    }
}

impl From<CurveFault> for Cause {
    ghost from_gives = { λ f r. r ≡ InCurve f };

    fn from(f: CurveFault) -> Cause {
        Cause::Curve(f)
    }
}

impl From<StaircaseFault> for Cause {
    ghost from_gives = { λ f r. r ≡ InStaircase f };

    fn from(f: StaircaseFault) -> Cause {
        Cause::Staircase(f)
    }
}

impl<F> From<(F, Place)> for FileFault
where
    Cause: From<F>,
{
    ghost from_gives = { λ f r. (⟦<Cause as From<F>>⟧.from_gives f.0 r.cause) × (r.place ≡ f.1) };

    fn from(f: (F, Place)) -> FileFault {
        FileFault {
            cause: Cause::from(f.0),
            place: f.1,
        }
    }
}
