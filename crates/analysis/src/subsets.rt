// The sets of sources, each behind its own subsets.
ghost use Rattle.std.specs.Prelude.{◌≡◌, ◌+◌, ◌<◌, ◌≤◌, length};
ghost use Rattle.theory.specs.Search.{Lacks, Subsets, doubled};
ghost use Rattle.analysis.specs.Sources.{masks, source_of};

use crate::sources::SourceList;
use base::bounded::BoundedList;
use loads::combination::Combination;

// Six sources have so many sets.
pub(crate) const MAX_SETS: usize = 64;

// Each set once more, with the task.
fn add_task(sets: &mut BoundedList<Combination, MAX_SETS>, task: u8)
    requires { (task < 32) × (length sets.old ≤ 32) × Lacks (masks sets.old) task }
    ensures sets { masks sets.new ≡ doubled task (masks sets.old) }
    ensures len { length sets.new ≡ length sets.old + length sets.old }
{
    // By place: the list grows while it is read, so no borrow of it can stand.
    for place in 0..sets.len() {
        let set = sets.as_slice()[place];
        sets.push(set.with(task)).unwrap();
    }
}

impl SourceList {
    pub(crate) fn subsets(&self) -> BoundedList<Combination, MAX_SETS>
        ensures { Subsets (source_of self.now.sources) (masks result) }
    {
        let mut sets = BoundedList::new(Combination::none());
        sets.push(Combination::none()).unwrap();
        for source in self.sources.as_slice() {
            add_task(&mut sets, source.task);
        }
        sets
    }
}
