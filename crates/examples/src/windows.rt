// The longest busy windows of tables that were worked out by hand.
use crate::three_tasks;
use analysis::refusal::Refusal;
use analysis::window::busy_window;
use pjd::curve::PjdCurve;
use pjd::{PjdCurves, PjdModel};
use std::test::Fail;
use tables::table::OpenTable;
use tables::task::Task;

#[test]
fn three_tasks(rt: HostRuntime) -> Result<(), Fail> {
    let table = three_tasks::table(8)?;
    let curves = three_tasks::curves()?;
    let model = PjdModel::new(&curves);
    assert_eq!(rt; busy_window(&table, &model, 2), Ok((9, 1)));
    assert_eq!(rt; busy_window(&table, &model, 3), Err(Refusal::NoSuchTask));
    assert_eq!(rt;
        busy_window(&table, &PjdModel::new(&curves[0..2]), 2),
        Err(Refusal::OtherTasks)
    );
    Ok(())
}

#[test]
fn one_task(rt: HostRuntime) -> Result<(), Fail> {
    let table = OpenTable::new(Task::new(6, 11)?).close();
    let typical = Some(PjdCurve::new(10, 0, 10)?);
    let overload = Some(PjdCurve::new(50, 0, 50)?);
    let curves = [PjdCurves { typical, overload }];
    assert_eq!(rt;
        busy_window(&table, &PjdModel::new(&curves), 0),
        Ok((18, 3))
    );
    Ok(())
}

#[test]
fn no_busy_window(rt: HostRuntime) -> Result<(), Fail> {
    let mut table = OpenTable::new(Task::new(10, 10)?);
    table.add(Task::new(1, 1000)?)?;
    let table = table.close();
    let curves = [
        PjdCurves {
            typical: Some(PjdCurve::new(10, 0, 10)?),
            overload: None,
        },
        PjdCurves {
            typical: Some(PjdCurve::new(1000, 0, 1000)?),
            overload: None,
        },
    ];
    assert_eq!(rt;
        busy_window(&table, &PjdModel::new(&curves), 1),
        Err(Refusal::NoBusyWindow)
    );
    Ok(())
}
