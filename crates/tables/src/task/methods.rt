// Making a task, and what it holds.
ghost use Rattle.std.specs.Prelude.{◌≡◌, ◌≤◌};
ghost use Rattle.base.specs.Faults.{in_numbers};
ghost use Rattle.tables.specs.Tasks.{task, times_of, fault_number};

use super::{Task, TaskFault};

const MAX_WCET: u32 = 100_000;

const MAX_DEADLINE: u32 = 1_000_000;

impl Task {
    // The task, where both times are in range.
    pub fn new(wcet: u32, deadline: u32) -> Result<Task, TaskFault>
        ensures { in_numbers times_of fault_number result ≡ task wcet deadline }
    {
        if wcet < 1 || wcet > MAX_WCET || deadline < 1 || deadline > MAX_DEADLINE {
            return Err(TaskFault::OutOfRange);
        }
        Ok(Task { wcet, deadline })
    }

    pub fn wcet(&self) -> u32
        ensures value { result ≡ self.now.wcet }
        ensures low_bound { 1 ≤ result }
        ensures high_bound { result ≤ 100000 }
    {
        self.wcet
    }

    pub fn deadline(&self) -> u32
        ensures value { result ≡ self.now.deadline }
        ensures low_bound { 1 ≤ result }
        ensures high_bound { result ≤ 1000000 }
    {
        self.deadline
    }
}
