// What a tick serves, and what it marks, among the entered records.
ghost use Rattle.std.specs.Prelude.{◌≡◌, true, length, map, nat_lt};
ghost use Rattle.std.specs.Option.{option_map_or};
ghost use Rattle.theory.specs.Service.{Served};
ghost use Rattle.dispatch.specs.Calls.{ServesTurn};
ghost use Rattle.dispatch.specs.Records.{marked, task_at, waits};

use crate::record::JobRecord;

// Whether a record that is entered later goes before the first so far, which stands with its task and its place.
fn goes_before(later: &JobRecord, first: Option<(u8, usize)>) -> bool
    ensures { result ≡ option_map_or (λ p. nat_lt later.now.task p.0) first true }
{
    match first {
        None => true,
        Some((task, _)) => later.task < task,
    }
}

// The place to serve: of the records with units left the one of the smallest task, and of these the first. `min_by_key` with
// tasks and places was tried: it took up to three times the time.
fn served_place(records: &[JobRecord]) -> Option<usize>
    ensures { Served (length records.now) (waits records.now) (task_at records.now) result }
{
    let mut first = None;
    for (at, g) in records.iter().enumerate() {
        if g.left > 0 && goes_before(g, first) {
            first = Some((g.task, at));
        }
    }
    first.map(|(_, at)| at)
}

// Serves a unit of the record whose turn it is, up to the clock, and answers its task.
pub(crate) fn serve(records: &mut [JobRecord], clock: u32) -> Option<u8>
    ensures { ServesTurn clock (length records.old) records.old result records.new }
{
    let at = served_place(records)?;
    let g = &mut records[at];
    g.serve_unit(clock);
    Some(g.task)
}

// Marks the records that are late at the clock.
pub(crate) fn mark_late(records: &mut [JobRecord], clock: u32)
    ensures { records.new ≡ map (marked clock) records.old }
{
    for g in records.iter_mut() {
        g.mark(clock);
    }
}
