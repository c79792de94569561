// Three tasks that were worked out by hand: the first two have overload only, the third is typical only.
use pjd::PjdCurves;
use pjd::curve::PjdCurve;
use std::test::Fail;
use tables::table::{ClosedTable, OpenTable};
use tables::task::Task;

// Their table, where the third has this deadline.
pub(crate) fn table(deadline: u32) -> Result<ClosedTable, Fail> {
    let mut table = OpenTable::new(Task::new(2, 5)?);
    table.add(Task::new(3, 10)?)?;
    table.add(Task::new(4, deadline)?)?;
    Ok(table.close())
}

pub(crate) fn curves() -> Result<[PjdCurves; 3], Fail> {
    let first = Some(PjdCurve::new(20, 0, 20)?);
    let second = Some(PjdCurve::new(30, 0, 30)?);
    let third = Some(PjdCurve::new(10, 0, 10)?);
    Ok([
        PjdCurves {
            typical: None,
            overload: first,
        },
        PjdCurves {
            typical: None,
            overload: second,
        },
        PjdCurves {
            typical: third,
            overload: None,
        },
    ])
}
