// Filling and closing tables; a table's meaning is the list of its tasks.
ghost use Rattle.std.specs.Prelude.{◌≡◌, [], ◌∷◌, MatchOption};
ghost use Rattle.base.specs.Faults.{Becomes};
ghost use Rattle.tables.specs.Faults.{fault_number};
ghost use Rattle.tables.specs.Tables.{added, replaced, tasks_of};

use super::{ClosedTable, MAX_TASKS, OpenTable, Table, TableFault};
use crate::task::Task;
use base::bounded::BoundedList;
use std::marker::PhantomData;

impl OpenTable {
    // A table is made with its first task, so none is empty.
    pub fn new(first: Task) -> OpenTable
        ensures { tasks_of result ≡ first ∷ [] }
    {
        let mut tasks = BoundedList::new(first);
        tasks.push(first).unwrap();
        Table {
            tasks,
            state: PhantomData,
        }
    }

    // The table of these tasks; there is none where the list is empty.
    pub fn from_list(tasks: BoundedList<Task, MAX_TASKS>) -> Option<OpenTable>
        ensures { MatchOption result (tasks ≡ []) (λ t. tasks_of t ≡ tasks) }
    {
        if tasks.len() == 0 {
            return None;
        }
        Some(Table {
            tasks,
            state: PhantomData,
        })
    }

    // One task more, at the end.
    pub fn add(&mut self, task: Task) -> Result<(), TableFault>
        ensures { Becomes tasks_of fault_number (added task (tasks_of self.old)) result self.old self.new }
    {
        self.tasks.push(task)?;
        Ok(())
    }

    // Another task at position i.
    pub fn replace(&mut self, i: u8, task: Task) -> Result<(), TableFault>
        ensures { Becomes tasks_of fault_number (replaced i task (tasks_of self.old)) result self.old self.new }
    {
        self.tasks.set(i as usize, task)?;
        Ok(())
    }

    pub fn close(self) -> ClosedTable
        ensures { tasks_of result ≡ tasks_of self }
    {
        self.into_state()
    }
}
