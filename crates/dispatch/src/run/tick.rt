// Ticking the clock.
ghost use Rattle.dispatch.specs.Calls.{Ticked};

use super::Run;
use crate::record::JobRecord;
use crate::refusal::Refusal;
use crate::service::{mark_late, serve};

const MAX_CLOCK: u32 = 1_000_000_000;

impl Run {
    // Serves one unit, moves the clock, marks the jobs that are late, and answers the served task; none where it is idle.
    pub fn tick(&mut self, log: &mut [JobRecord]) -> Result<Option<u8>, Refusal>
        ensures { Ticked self.old log.old result self.new log.new }
    {
        if self.entered > log.len() {
            return Err(Refusal::LogTooShort);
        }
        if self.clock >= MAX_CLOCK {
            return Err(Refusal::ClockAtEnd);
        }
        self.clock += 1;
        let entered = &mut log[..self.entered];
        let served = serve(entered, self.clock);
        mark_late(entered, self.clock);
        Ok(served)
    }
}
