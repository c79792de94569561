// A curve by period, jitter and distance, always in range.
ghost use Rattle.std.specs.Prelude.{◌≤◌};

// Releases come every `period` ticks, each up to `jitter` ticks late, and no two less than `distance` ticks apart.
#[derive(Clone, Copy, PartialEq, Eq, Debug)]
pub struct PjdCurve {
    period: u32,
    jitter: u32,
    distance: u32,
    ghost in_range: { (1 ≤ period) × (period ≤ 1000000) × (jitter ≤ 10000000) × (1 ≤ distance) × (distance ≤ period) },
}

// Why there is no such curve.
#[derive(Clone, Copy, PartialEq, Eq, Debug)]
pub enum CurveFault {
    OutOfRange,
}

pub mod methods;
