// Arrival models: how many releases a window of time can hold at most.
#![tactic(auto)]

ghost use Rattle.std.specs.Prelude.{◌≡◌};
ghost use Rattle.arrival.specs.Meaning.{Meaning, ZeroAtZero, Monotone, AtMostLength, FewTasks, AbsentIsZero};

pub mod chained;
pub mod class;
pub mod curve;
pub mod tasks;

use class::Class;

// How many tasks a model holds at most.
pub const MAX_HELD: u8 = 255;

// An arrival model. Its meaning is a number of tasks and, for each task, class and window length, the count: at most so
// many releases lie in any half-open window of that length. An implementation gives its meaning, proves the five laws of
// it, and answers as it says. Code over a model knows no more than this.
pub trait ArrivalModel {
    ghost meaning: { Self → Meaning };

    // a window of length 0 has count 0
    ghost zero_at_zero: { (m : Self) → ZeroAtZero (meaning m) };

    // a longer window never has a smaller count
    ghost monotone: { (m : Self) → Monotone (meaning m) };

    // no count exceeds its length
    ghost at_most_length: { (m : Self) → AtMostLength (meaning m) };

    // there are at most 255 tasks
    ghost few_tasks: { (m : Self) → FewTasks (meaning m) };

    // a task that is not held has count 0
    ghost absent_is_zero: { (m : Self) → AbsentIsZero (meaning m) };

    fn tasks(&self) -> u8
        ensures { result ≡ (meaning self.now).tasks };

    fn count(&self, task: u8, class: Class, length: u32) -> u32
        ensures { result ≡ (meaning self.now).count task class length };
}

// A model that is lent is a model with the same meaning.
impl<'a, M: ArrivalModel> ArrivalModel for &'a M {
    ghost meaning = { λ m. M.ArrivalModel.meaning m.now };

    ghost zero_at_zero = { λ m. M.ArrivalModel.zero_at_zero m.now };

    ghost monotone = { λ m. M.ArrivalModel.monotone m.now };

    ghost at_most_length = { λ m. M.ArrivalModel.at_most_length m.now };

    ghost few_tasks = { λ m. M.ArrivalModel.few_tasks m.now };

    ghost absent_is_zero = { λ m. M.ArrivalModel.absent_is_zero m.now };

    fn tasks(&self) -> u8 {
        (**self).tasks()
    }

    fn count(&self, task: u8, class: Class, length: u32) -> u32 {
        (**self).count(task, class, length)
    }
}
