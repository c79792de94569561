// A run of a closed table, and the token that its end takes back.
ghost use Rattle.std.specs.Prelude.{◌≡◌, ◌≤◌, true};

use tables::table::ClosedTable;

pub mod ends;
pub mod methods;
pub mod release;
pub mod tick;

// A table that is being run: the clock, and how many jobs are entered in the log.
pub struct Run {
    table: ClosedTable,
    clock: u32,
    // beside the log, which is the caller's
    entered: usize,
    ghost clock_end: { clock ≤ 1000000000 },
}

// Given out with a run. It may be dropped only once it is spent, and only the end of a run spends it.
pub struct RunToken {
    // a flag, so that an edit can show that a drop is refused
    spent: bool,
}

impl Drop for RunToken {
    fn drop(self)
        requires { self.spent ≡ true }
    {
        let RunToken { spent: _ } = self;
    }
}
