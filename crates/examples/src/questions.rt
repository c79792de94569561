// Questions on the tables that were worked out by hand, with enough cells and with too few.
use crate::three_tasks;
use analysis::question::ask;
use analysis::refusal::Refusal;
use pjd::PjdModel;
use std::test::Fail;

// How many of ten jobs of task 2 within 90 ticks can be late, where it has this deadline.
fn third_task(deadline: u32, cells: &mut [u16]) -> Result<Result<u16, Refusal>, Fail> {
    let table = three_tasks::table(deadline)?;
    let curves = three_tasks::curves()?;
    let model = PjdModel::new(&curves);
    Ok(ask(&table, &model, 2, 10, 90, cells))
}

#[test]
fn deadlines(rt: HostRuntime) -> Result<(), Fail> {
    let mut cells = [7; 36];
    assert_eq!(rt; third_task(8, &mut cells)?, Ok(4));
    assert_eq!(rt; cells[35], 7);
    assert_eq!(rt; third_task(6, &mut cells)?, Ok(4));
    assert_eq!(rt; third_task(4, &mut cells)?, Ok(10));
    assert_eq!(rt; third_task(3, &mut cells)?, Err(Refusal::TypicalMisses));
    assert_eq!(rt; third_task(9, &mut [])?, Ok(0));
    Ok(())
}

#[test]
fn too_few_cells(rt: HostRuntime) -> Result<(), Fail> {
    let mut cells = [7; 34];
    assert_eq!(rt; third_task(8, &mut cells)?, Err(Refusal::TooFewCells));
    assert_eq!(rt; cells[0], 7);
    Ok(())
}
