// Making a curve, and its counts.
ghost use Rattle.std.specs.Prelude.{◌≡◌};
ghost use Rattle.base.specs.Faults.{in_numbers};
ghost use Rattle.pjd.specs.Curves.{pjd, pjd_count, numbers_of, fault_number};
ghost use Rattle.pjd.specs.Laws.{curve_laws};

use super::{CurveFault, PjdCurve};
use arrival::curve::ArrivalCurve;

impl PjdCurve {
    // The curve, where period, jitter and distance are in range.
    pub fn new(period: u32, jitter: u32, distance: u32) -> Result<PjdCurve, CurveFault>
        ensures { in_numbers numbers_of fault_number result ≡ pjd period jitter distance }
    {
        if period < 1
            || period > 1_000_000
            || jitter > 10_000_000
            || distance < 1
            || distance > period
        {
            return Err(CurveFault::OutOfRange);
        }
        Ok(PjdCurve {
            period,
            jitter,
            distance,
        })
    }
}

impl ArrivalCurve for PjdCurve {
    ghost counts = { λ c. pjd_count (numbers_of c) };

    ghost lawful = { curve_laws };

    fn count(&self, length: u32) -> u32 {
        let shifted = u64::from(length) + u64::from(self.jitter);
        let by_period = shifted.div_ceil(u64::from(self.period));
        let by_distance = u64::from(length.div_ceil(self.distance));
        by_period.min(by_distance) as u32
    }
}
