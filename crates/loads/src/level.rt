// The level of a task: the task and those before it, in a table under a model.
ghost use Rattle.std.specs.Prelude.{◌≡◌, ◌*◌, ◌<◌, ◌≤◌, ⊤, length};
ghost use Rattle.theory.specs.Levels.{demand};
ghost use Rattle.theory.specs.Sets.{member};
ghost use Rattle.loads.specs.Works.{wcet_of};

use crate::combination::Combination;
use crate::kinds::arrivals_in;
use arrival::ArrivalModel;
use std::alloc::AllocError;
use tables::task::Task;

pub struct Level<'a, M> {
    pub model: &'a M,
    pub tasks: &'a [Task],
    pub task: u8,
    ghost few: { length tasks.now ≤ 32 },
    ghost held: { task < length tasks.now },
}

impl<'a, M> Clone for Level<'a, M> {
    ghost is_clone = { λ x y. y ≡ x };

    ghost is_infallible = { λ _. ⊤ };

    fn clone(&self) -> Result<Level<'a, M>, AllocError> {
        Ok(*self)
    }
}

// It only borrows a model and tasks, so it is copied whatever the model.
impl<'a, M> Copy for Level<'a, M> {}

impl<'a, M: ArrivalModel> Level<'a, M> {
    // The work of q jobs of the task.
    pub(crate) fn work(&self, q: u32) -> u64
        ensures value { let l = self.now in result ≡ q * wcet_of l.tasks.now l.task }
        ensures bound { result ≤ 429496729500000 }
    {
        q as u64 * self.tasks[self.task as usize].wcet() as u64
    }

    // The work that the first n tasks bring in a window of this length at most; by their number, as its definition has it.
    pub(crate) fn demand(&self, combination: &Combination, n: usize, window: u32) -> u64
        requires { n ≤ length self.now.tasks.now }
        ensures value { let l = self.now in result ≡ demand (M.meaning l.model.now) (wcet_of l.tasks.now) (member combination.now.mask) n window }
        ensures bound { result ≤ n * 858993459200000 }
    {
        let mut sum = 0;
        for (j, task) in self.tasks[..n].iter().enumerate() {
            let jobs = arrivals_in(self.model, combination, j as u8, window);
            sum += task.wcet() as u64 * jobs;
        }
        sum
    }
}
