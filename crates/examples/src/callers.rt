// What a caller may rely on: how long the lists are that it is handed, what it may make of what it was lent, and what is copied.
ghost use Rattle.std.specs.Prelude.{◌<◌, ◌≤◌, length};
ghost use Rattle.tables.specs.Tables.{tasks_of};

use crate::three_tasks;
use arrival::ArrivalModel;
use base::bounded::BoundedList;
use loads::combination::Combination;
use loads::kinds::LevelLoad;
use loads::least_length;
use loads::level::Level;
use pjd::PjdModel;
use settings::settings::Settings;
use std::test::Fail;
use tables::table::ClosedTable;
use tables::task::Task;

fn questions(settings: &Settings) -> usize
    ensures { result ≤ 16 }
{
    settings.questions().len()
}

// Known of a table that is only held.
fn is_small(_table: &ClosedTable) -> bool
    ensures { length (tasks_of _table.now) ≤ 32 }
{
    true
}

// Known of a list that is left, full or not.
fn pushed(list: &mut BoundedList<Task, 4>, task: Task) -> bool
    ensures { length list.new ≤ 4 }
{
    list.push(task).is_ok()
}

#[test]
fn lengths_are_bounded(rt: HostRuntime) -> Result<(), Fail> {
    let settings = Settings::new();
    assert_eq!(rt; questions(&settings), 0);
    assert!(rt; is_small(&three_tasks::table(8)?));
    let task = Task::new(1, 1)?;
    let mut list = BoundedList::new(task);
    for _ in 0..4 {
        assert!(rt; pushed(&mut list, task));
    }
    assert!(rt; !pushed(&mut list, task));
    Ok(())
}

// A load that is made and handed on by a function that was lent its parts.
fn level_load<'a, M: ArrivalModel>(model: &'a M, tasks: &'a [Task], task: u8) -> LevelLoad<'a, M>
    requires { (length tasks.now ≤ 32) × (task < length tasks.now) }
{
    LevelLoad {
        level: Level { model, tasks, task },
        combination: Combination::every(),
    }
}

#[test]
fn loads_are_handed_on(rt: HostRuntime) -> Result<(), Fail> {
    let table = three_tasks::table(8)?;
    let curves = three_tasks::curves()?;
    let model = PjdModel::new(&curves);
    let tasks = table.tasks();
    assert!(rt; tasks.len() == 3);
    let load = level_load(&model, tasks, 2);
    assert_eq!(rt; least_length(&load, 1_000_000), Some(9));
    Ok(())
}

#[derive(Clone, Copy)]
struct Marked {
    set: Combination,
    task: u8,
}

fn has(marked: Marked) -> bool {
    marked.set.contains(marked.task)
}

#[test]
fn sets_are_copied_where_they_are_held(rt: HostRuntime) -> Result<(), Fail> {
    let marked = Marked {
        set: Combination::none().with(3),
        task: 3,
    };
    assert!(rt; has(marked));
    assert!(rt; has(marked));
    Ok(())
}
