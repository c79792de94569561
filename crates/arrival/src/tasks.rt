// The model that has a curve for each task and class; it holds the first 255 tasks that it is given.
ghost use Rattle.std.specs.Prelude.{◌≡◌, min, length, take, Some};
ghost use Rattle.arrival.specs.Tasks.{option_count, task_count, curves_meaning};
ghost use Rattle.arrival.specs.TasksLaws.{option_laws, curves_lawful};

use crate::class::Class;
use crate::curve::{ArrivalCurve, TaskCurves};
use crate::{ArrivalModel, MAX_HELD};

// A class may have no releases.
impl<C: ArrivalCurve> ArrivalCurve for Option<C> {
    ghost counts = { option_count C.ArrivalCurve.counts };

    ghost lawful = { option_laws C.ArrivalCurve.counts C.ArrivalCurve.lawful };

    fn count(&self, length: u32) -> u32 {
        match self {
            Some(curve) => curve.count(length),
            None => 0,
        }
    }
}

impl<C: ArrivalCurve> TaskCurves<C> {
    pub fn count(&self, class: Class, length: u32) -> u32
        ensures { result ≡ task_count C.ArrivalCurve.counts (Some self.now) class length }
    {
        match class {
            Class::Typical => self.typical.count(length),
            Class::Overload => self.overload.count(length),
        }
    }
}

#[derive(Clone, Copy)]
pub struct CurveModel<'a, C> {
    tasks: &'a [TaskCurves<C>],
}

impl<'a, C> CurveModel<'a, C> {
    pub fn new(tasks: &'a [TaskCurves<C>]) -> CurveModel<'a, C>
        ensures { result.tasks.now ≡ tasks.now }
    {
        CurveModel { tasks }
    }

    // The tasks that the model holds.
    #[tactic(auto, using(std::proofs::lemmas::List::take_min))]
    fn held(&self) -> &[TaskCurves<C>]
        ensures value { result.now ≡ take 255 self.now.tasks.now }
        ensures len { length result.now ≡ min (length self.now.tasks.now) 255 }
    {
        &self.tasks[..(MAX_HELD as usize).min(self.tasks.len())]
    }
}

impl<'a, C: ArrivalCurve> ArrivalModel for CurveModel<'a, C> {
    ghost meaning = { λ m. curves_meaning C.ArrivalCurve.counts m.tasks.now };

    ghost zero_at_zero = { λ m. (curves_lawful C.ArrivalCurve.counts C.ArrivalCurve.lawful m.tasks.now).zero_at_zero };

    ghost monotone = { λ m. (curves_lawful C.ArrivalCurve.counts C.ArrivalCurve.lawful m.tasks.now).monotone };

    ghost at_most_length = { λ m. (curves_lawful C.ArrivalCurve.counts C.ArrivalCurve.lawful m.tasks.now).at_most_length };

    ghost few_tasks = { λ m. (curves_lawful C.ArrivalCurve.counts C.ArrivalCurve.lawful m.tasks.now).few_tasks };

    ghost absent_is_zero = { λ m. (curves_lawful C.ArrivalCurve.counts C.ArrivalCurve.lawful m.tasks.now).absent_is_zero };

    fn tasks(&self) -> u8 {
        self.held().len() as u8
    }

    fn count(&self, task: u8, class: Class, length: u32) -> u32 {
        self.held()
            .get(task as usize)
            .map_or(0, |curves| curves.count(class, length))
    }
}
