// The sources of a question: the tasks whose overload can make a job late, each with its budget.
ghost use Rattle.std.specs.Prelude.{◌≡◌, ◌<◌, ◌≤◌, MatchOption, nat_le};
ghost use Rattle.theory.specs.Sums.{count as count_below};
ghost use Rattle.analysis.specs.Sources.{Gathered, Sources, budget_within};

use arrival::ArrivalModel;
use arrival::class::Class;
use base::bounded::BoundedList;

const MAX_SOURCES: usize = 6;

// A task, and how often its overload counts at most.
#[derive(Clone, Copy)]
pub(crate) struct Source {
    pub(crate) task: u8,
    pub(crate) budget: u16,
}

// At most six tasks, no two the same, with budgets of at most 1,000.
#[derive(Drop)]
pub(crate) struct SourceList {
    pub(crate) sources: BoundedList<Source, MAX_SOURCES>,
    ghost lawful: { Sources sources },
}

// How often overload counts: so often as a stretch of the length `reach` holds it, k at most.
#[derive(Drop)]
pub(crate) struct Budgets<'a, M> {
    pub(crate) model: &'a M,
    pub(crate) k: u16,
    pub(crate) reach: u32,
    ghost few: { k ≤ 1000 },
}

impl<'a, M: ArrivalModel> Budgets<'a, M> {
    // The budget of a task.
    fn of(&self, task: u8) -> u16
        ensures { let b = self.now in result ≡ budget_within (M.meaning b.model.now) b.k b.reach task }
    {
        let count = self.model.count(task, Class::Overload, self.reach);
        count.min(self.k as u32) as u16
    }

    // The sources among the first n tasks; none where there are more than six.
    pub(crate) fn sources(&self, n: u8) -> Option<SourceList>
        requires { n ≤ 32 }
        ensures { let b = self.now in
            let budget = budget_within (M.meaning b.model.now) b.k b.reach in
            MatchOption result (6 < count_below (λ j. nat_le 1 (budget j)) n) (λ found. Gathered budget n found.sources) }
    {
        let mut sources = BoundedList::new(Source { task: 0, budget: 0 });
        for task in 0..n {
            let budget = self.of(task);
            if budget > 0 {
                sources.push(Source { task, budget }).ok()?;
            }
        }
        Some(SourceList { sources })
    }
}
