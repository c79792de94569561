// A task, always in range.
ghost use Rattle.std.specs.Prelude.{◌≤◌};

// Its worst-case execution time and its relative deadline, in ticks.
#[derive(Clone, Copy, PartialEq, Eq, Debug)]
pub struct Task {
    wcet: u32,
    deadline: u32,
    ghost in_range: { (1 ≤ wcet) × (wcet ≤ 100000) × (1 ≤ deadline) × (deadline ≤ 1000000) },
}

// Why there is no such task.
#[derive(Clone, Copy, PartialEq, Eq, Debug)]
pub enum TaskFault {
    OutOfRange,
}

pub mod methods;
