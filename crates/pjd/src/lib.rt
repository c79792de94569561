// The arrival model by period, jitter and distance.
#![tactic(auto)]

use arrival::curve::TaskCurves;
use arrival::tasks::CurveModel;

pub mod curve;

use curve::PjdCurve;

// The curves of one task; `None` is a class without releases.
pub type PjdCurves = TaskCurves<Option<PjdCurve>>;

// The model of the first 255 tasks of a slice of curves.
pub type PjdModel<'a> = CurveModel<'a, Option<PjdCurve>>;
