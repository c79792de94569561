// What a run holds.
ghost use Rattle.std.specs.Prelude.{◌≡◌, ◌≤◌};

use super::Run;
use tables::table::ClosedTable;

impl Run {
    pub fn table(&self) -> &ClosedTable
        ensures { result.now ≡ self.now.table }
    {
        &self.table
    }

    // The number of accepted ticks.
    pub fn clock(&self) -> u32
        ensures value { result ≡ self.now.clock }
        ensures bound { result ≤ 1000000000 }
    {
        self.clock
    }

    // The number of accepted releases.
    pub fn entered(&self) -> usize
        ensures { result ≡ self.now.entered }
    {
        self.entered
    }
}
