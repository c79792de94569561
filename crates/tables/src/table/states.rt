// What a table has in either state.
ghost use Rattle.std.specs.Prelude.{◌≡◌, ◌≤◌, length};
ghost use Rattle.tables.specs.Tables.{tasks_of};

use super::Table;
use crate::task::Task;
use std::marker::PhantomData;

impl<State> Table<State> {
    pub fn tasks(&self) -> &[Task]
        ensures value { result.now ≡ tasks_of self.now }
        ensures low_bound { 1 ≤ length result.now }
        ensures high_bound { length result.now ≤ 32 }
    {
        self.tasks.as_slice()
    }

    // The same table in another state.
    pub(super) fn into_state<Other>(self) -> Table<Other>
        ensures { tasks_of result ≡ tasks_of self }
    {
        let Table { tasks, state: _ } = self;
        Table {
            tasks,
            state: PhantomData,
        }
    }
}
