// The question: how many of k consecutive jobs of a task, that span at most S ticks, can be late?
ghost use Rattle.std.specs.Prelude.{◌≡◌, ◌+◌, ◌-◌, ◌*◌, ◌≤◌, min, [], ◌∷◌, length, IfOk, MatchResult};
ghost use Rattle.base.specs.Faults.{in_numbers};
ghost use Rattle.base.specs.Tests.{Refused};
ghost use Rattle.dispatch.specs.Executions.{ExecutionPromise};
ghost use Rattle.loads.specs.Tables.{table_of};
ghost use Rattle.tables.specs.Tables.{tasks_of};
ghost use Rattle.theory.specs.Promises.{ExchangePromise};
ghost use Rattle.theory.specs.Questions.{Answer, CellsAfter};
ghost use Rattle.analysis.specs.Refusals.{refusal_number};

use crate::refusal::Refusal;
use crate::safe::SafeLevel;
use crate::sources::Budgets;
use crate::window::level_of;
use arrival::ArrivalModel;
use tables::table::ClosedTable;

const MAX_JOBS: u16 = 1_000;

const MAX_SPAN: u32 = 1_000_000_000;

// Whether k and the span are in range.
fn check_range(jobs: u16, span: u32) -> Result<(), Refusal>
    ensures { MatchResult result
        (λ _. (1 ≤ jobs) × (jobs ≤ 1000) × (span ≤ 1000000000))
        (λ f. Refused (((1 ≤ jobs) × (jobs ≤ 1000), 32) ∷ (span ≤ 1000000000, 33) ∷ []) (refusal_number f)) }
{
    if jobs < 1 || jobs > MAX_JOBS {
        return Err(Refusal::JobsOutOfRange);
    }
    if span > MAX_SPAN {
        return Err(Refusal::SpanTooLong);
    }
    Ok(())
}

// The windows that hold the jobs lie within the span and a window at either end.
fn reach(span: u32, longest: u32) -> u32
    requires { (span ≤ 1000000000) × (1 ≤ longest) × (longest ≤ 1000000) }
    ensures { result ≡ span + 2 * longest - 1 }
{
    span + 2 * longest - 1
}

// The smaller of k and N × G.
fn bound(jobs: u16, late: u32, windows: u16) -> u16
    ensures { result ≡ min jobs (late * windows) }
{
    let all = late as u64 * windows as u64;
    all.min(jobs as u64) as u16
}

// How many of any `jobs` consecutive jobs of the task, the first and the last released at most `span` ticks apart, can be
// late. The cells are scratch memory.
pub fn ask<'a, M: ArrivalModel>(
    table: &'a ClosedTable,
    model: &'a M,
    task: u8,
    jobs: u16,
    span: u32,
    cells: &mut [u16],
) -> Result<u16, Refusal>
    ensures answer { Answer (M.meaning model.now) (table_of (tasks_of table.now)) task jobs span (length cells.old) (in_numbers (λ a. a) refusal_number result) }
    ensures executions { IfOk result (λ a. ExecutionPromise (M.meaning model.now) table.now task jobs span a) }
    ensures exchange { IfOk result (λ a. ExchangePromise (M.meaning model.now) (table_of (tasks_of table.now)) task jobs span (length cells.old) a) }
    ensures cells { CellsAfter (M.meaning model.now) (table_of (tasks_of table.now)) task jobs span (in_numbers (λ a. a) refusal_number result) cells.old cells.new }
{
    let level = level_of(table, model, task)?;
    check_range(jobs, span)?;
    // No `?`: tried, the borrow checker does not cover it for this type yet.
    let safe = match SafeLevel::admit(&level) {
        Ok(safe) => safe,
        Err(f) => return Err(f),
    };
    let late = safe.late_positions();
    if late == 0 {
        return Ok(0);
    }
    let budgets = Budgets {
        model,
        k: jobs,
        reach: reach(span, safe.longest.length),
    };
    let sources = budgets.sources(task + 1).ok_or(Refusal::TooManySources)?;
    if sources.states() > cells.len() {
        return Err(Refusal::TooFewCells);
    }
    let windows = safe.greatest_packing(&sources, cells);
    Ok(bound(jobs, late, windows))
}
