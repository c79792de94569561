// The reader of a settings file: what it takes next depends on its section and the number still due.
ghost use Rattle.settings.specs.Room.{Room, room_prop};

use crate::cursor::Cursor;
use crate::settings::Settings;
use base::bounded::BoundedList;
use staircase::stairs::Staircase;
use tables::table::MAX_TASKS;
use tables::task::Task;

// The section that the reader is in; the staircases of a task are two entries, the typical one first.
#[derive(Clone, Copy, PartialEq, Eq, Debug)]
pub(crate) enum Section {
    Start,
    Tasks,
    Curves,
    Typical,
    Overload,
    Questions,
    End,
}

#[derive(Drop)]
pub(crate) struct Reader<'a> {
    cursor: Cursor<'a>,
    section: Section,
    // the entries of the section that are still due; of staircases, the tasks
    due: u8,
    tasks: BoundedList<Task, MAX_TASKS>,
    // the typical staircase, while the overload one of the same task is due; held in the section, it would take the
    // derived equality from it
    typical: Staircase<'a>,
    settings: Settings<'a>,
    ghost room: { Room section due tasks settings } by { room_prop section due tasks settings },
}

pub(crate) mod methods;
