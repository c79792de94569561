// Opening a closed table again.
ghost use Rattle.std.specs.Prelude.{◌≡◌};
ghost use Rattle.tables.specs.Tables.{tasks_of};

use super::{ClosedTable, OpenTable};

impl ClosedTable {
    pub fn reopen(self) -> OpenTable
        ensures { tasks_of result ≡ tasks_of self }
    {
        self.into_state()
    }
}
