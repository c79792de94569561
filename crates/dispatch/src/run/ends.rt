// Starting and ending a run.
ghost use Rattle.std.specs.Prelude.{◌≡◌, false, take, count_by};
ghost use Rattle.dispatch.specs.Calls.{Fresh};
ghost use Rattle.dispatch.specs.Executions.{ExecutionsAgree};

use super::{Run, RunToken};
use crate::record::JobRecord;
use tables::table::ClosedTable;

// A run of the table, and the token that its end takes back. Whatever is released and ticked from here on, the log holds
// what the service rule says.
pub fn start(table: ClosedTable) -> (Run, RunToken)
    ensures fresh { Fresh table result.0 }
    ensures unspent { result.1.spent ≡ false }
    ensures agrees { ExecutionsAgree table }
{
    let run = Run {
        table,
        clock: 0,
        entered: 0,
    };
    (run, RunToken { spent: false })
}

// The table again, and the number of late jobs among the entered ones, as far as the log goes.
pub fn end(run: Run, mut token: RunToken, log: &[JobRecord]) -> (ClosedTable, usize)
    ensures table { result.0 ≡ run.table }
    ensures late { result.1 ≡ count_by (λ g. g.late) (take run.entered log.now) }
{
    token.spent = true;
    let Run {
        table,
        clock: _,
        entered,
    } = run;
    let records = &log[..entered.min(log.len())];
    (table, records.iter().map(|g| usize::from(g.late)).sum())
}
