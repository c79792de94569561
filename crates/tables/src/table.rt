// Tables of 1 to 32 tasks, open or closed.
ghost use Rattle.std.specs.Prelude.{◌≡◌, ◌≤◌, length};
ghost use Rattle.tables.specs.Faults.{table_fault};

use crate::task::Task;
use base::bounded::{BoundedList, ListFault};
use std::marker::PhantomData;

// How many tasks a table holds at most.
pub const MAX_TASKS: usize = 32;

// The state of a table that may be altered.
#[derive(Drop)]
pub struct Open;

// The state of one that may not: it is asked about, or opened again.
#[derive(Drop)]
pub struct Closed;

#[derive(Drop)]
pub struct Table<State> {
    tasks: BoundedList<Task, MAX_TASKS>,
    state: PhantomData<State>,
    ghost some: { 1 ≤ length tasks },
    ghost few: { length tasks ≤ 32 },
}

pub type OpenTable = Table<Open>;

pub type ClosedTable = Table<Closed>;

// Why a table was not altered.
#[derive(Clone, Copy, PartialEq, Eq, Debug)]
pub enum TableFault {
    Full,
    NoSuchTask,
}

impl From<ListFault> for TableFault {
    ghost from_gives = { λ f r. r ≡ table_fault f };

    fn from(f: ListFault) -> TableFault {
        match f {
            ListFault::Full => TableFault::Full,
            ListFault::NoSuchPlace => TableFault::NoSuchTask,
        }
    }
}

pub mod methods;
pub mod reopening;
pub mod states;
