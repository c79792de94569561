// The call for the longest busy window of a task's level.
ghost use Rattle.std.specs.Prelude.{◌≡◌, ◌<◌, [], ◌∷◌, length, MatchResult};
ghost use Rattle.base.specs.Tests.{Refused};
ghost use Rattle.loads.specs.Tables.{table_of};
ghost use Rattle.tables.specs.Tables.{tasks_of};
ghost use Rattle.analysis.specs.Refusals.{refusal_number};
ghost use Rattle.analysis.specs.Windows.{AnswersWindow, OfTable};

use crate::busy::BusyWindow;
use crate::refusal::Refusal;
use arrival::ArrivalModel;
use loads::level::Level;
use tables::table::ClosedTable;

// The level of the task, after the first tests of every question: the model belongs to the table, and the task is in it.
pub(crate) fn level_of<'a, M: ArrivalModel>(
    table: &'a ClosedTable,
    model: &'a M,
    task: u8,
) -> Result<Level<'a, M>, Refusal>
    ensures { let m = M.meaning model.now in
        let ts = tasks_of table.now in
        MatchResult result
        (λ l. OfTable m (table_of ts) task × (l.model.now ≡ model.now) × (l.tasks.now ≡ ts) × (l.task ≡ task))
        (λ f. Refused ((m.tasks ≡ length ts, 30) ∷ (task < length ts, 31) ∷ []) (refusal_number f)) }
{
    let tasks = table.tasks();
    if model.tasks() as usize != tasks.len() {
        return Err(Refusal::OtherTasks);
    }
    if task as usize >= tasks.len() {
        return Err(Refusal::NoSuchTask);
    }
    Ok(Level { model, tasks, task })
}

// The length L of the longest busy window of the tasks up to `task`, every one of which may be overloaded, and the number K
// of jobs of `task` in it.
pub fn busy_window<'a, M: ArrivalModel>(
    table: &'a ClosedTable,
    model: &'a M,
    task: u8,
) -> Result<(u32, u32), Refusal>
    ensures { AnswersWindow (M.meaning model.now) (tasks_of table.now) task result }
{
    let level = level_of(table, model, task)?;
    // No `ok_or` and `?`: tried, the borrow checker does not cover them for this type yet.
    match BusyWindow::longest(&level) {
        Some(longest) => Ok((longest.length, longest.positions())),
        None => Err(Refusal::NoBusyWindow),
    }
}
