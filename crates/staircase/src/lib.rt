// The arrival model by staircases whose points are read where they lie.
#![tactic(auto)]

use arrival::curve::TaskCurves;
use arrival::tasks::CurveModel;

pub mod stairs;

use stairs::Staircase;

// The staircases of one task.
pub type Staircases<'a> = TaskCurves<Staircase<'a>>;

// The model of the first 255 tasks of a slice of staircases.
pub type StaircaseModel<'a> = CurveModel<'a, Staircase<'a>>;
