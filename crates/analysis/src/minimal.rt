// The minimal combinations: the minimal sets of sources whose overload can make a job late.
ghost use Rattle.std.specs.Prelude.{◌≡◌, Decides};
ghost use Rattle.loads.specs.Tables.{table_of};
ghost use Rattle.theory.specs.Questions.{Fails};
ghost use Rattle.theory.specs.Search.{Covered, Exactly};
ghost use Rattle.theory.specs.Sets.{Minimal};
ghost use Rattle.analysis.specs.Sources.{masks, source_of};

use crate::safe::SafeLevel;
use crate::sources::SourceList;
use crate::subsets::MAX_SETS;
use arrival::ArrivalModel;
use base::bounded::BoundedList;
use loads::combination::Combination;

// Whether some set of the list is a subset of this one.
fn covered(found: &[Combination], set: &Combination) -> bool
    ensures { Decides result (Covered (masks found.now) set.now.mask) }
{
    found.iter().any(|smaller| smaller.is_subset(set))
}

impl<'a, M: ArrivalModel> SafeLevel<'a, M> {
    // Whether overload in the set can make a job late; that the empty set cannot is known, so it is not tested again.
    fn fails(&self, set: &Combination) -> bool
        ensures { let l = self.now.longest.level.now in Decides result (Fails (M.meaning l.model.now) (table_of l.tasks.now) l.task set.now.mask) }
    {
        !set.is_empty() && self.longest.with_overload(*set).has_late()
    }

    // The minimal combinations. Subsets come first, so a set that contains a found one is not tested.
    pub(crate) fn minimal(&self, sources: &SourceList) -> BoundedList<Combination, MAX_SETS>
        ensures { let l = self.now.longest.level.now in Exactly (Minimal (Fails (M.meaning l.model.now) (table_of l.tasks.now) l.task) (source_of sources.now.sources)) (masks result) }
    {
        let sets = sources.subsets();
        let mut found = BoundedList::new(Combination::none());
        for set in sets.as_slice() {
            if !covered(found.as_slice(), set) && self.fails(set) {
                found.push(*set).unwrap();
            }
        }
        found
    }
}
