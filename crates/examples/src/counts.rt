// The counts of curves and models at lengths that were worked out by hand.
use arrival::ArrivalModel;
use arrival::chained::ChainedModel;
use arrival::class::Class;
use arrival::curve::ArrivalCurve;
use pjd::curve::PjdCurve;
use pjd::{PjdCurves, PjdModel};
use staircase::stairs::Staircase;
use staircase::{StaircaseModel, Staircases};
use std::test::Fail;

// points 1, 2 and 7, behind two bytes and before one that are not theirs
const POINTS: [u8; 15] = [9, 9, 0, 0, 0, 1, 0, 0, 0, 2, 0, 0, 0, 7, 9];

#[test]
fn period_jitter_distance(rt: HostRuntime) -> Result<(), Fail> {
    let curve = PjdCurve::new(10, 15, 2)?;
    for (length, count) in [(0, 0), (1, 1), (3, 2), (5, 2), (6, 3), (16, 4)] {
        assert_eq!(rt; curve.count(length), count);
    }
    Ok(())
}

#[test]
fn repeated_points(rt: HostRuntime) -> Result<(), Fail> {
    let mut stairs = Staircase::empty();
    stairs.fill(3, 20, &POINTS[2..])?;
    for (length, count) in [(6, 2), (7, 3), (20, 3), (21, 4), (27, 6)] {
        assert_eq!(rt; stairs.count(length), count);
    }
    Ok(())
}

#[test]
fn chained_models(rt: HostRuntime) -> Result<(), Fail> {
    let curve = PjdCurve::new(10, 15, 2)?;
    let curves = [PjdCurves {
        typical: None,
        overload: Some(curve),
    }];
    let mut stairs = Staircase::empty();
    stairs.fill(3, 20, &POINTS[2..])?;
    let staircases = [Staircases {
        typical: stairs,
        overload: Staircase::empty(),
    }];
    let first = PjdModel::new(&curves);
    let second = StaircaseModel::new(&staircases);
    let both = ChainedModel {
        first: &first,
        second: &second,
    };
    assert_eq!(rt; both.tasks(), 2);
    assert_eq!(rt; both.count(0, Class::Typical, 16), 0);
    assert_eq!(rt; both.count(0, Class::Overload, 16), 4);
    assert_eq!(rt; both.count(1, Class::Typical, 27), 6);
    assert_eq!(rt; both.count(1, Class::Overload, 27), 0);
    assert_eq!(rt; both.count(2, Class::Typical, 27), 0);
    Ok(())
}
