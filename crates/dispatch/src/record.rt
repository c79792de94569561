// What the log holds of a job.
ghost use Rattle.std.specs.Prelude.{◌≡◌, ◌<◌};
ghost use Rattle.dispatch.specs.Records.{is_kind, marked, unit_served};

use arrival::class::Class;

#[derive(Clone, Copy, PartialEq, Eq, Debug)]
pub struct JobRecord {
    pub task: u8,
    pub class: Class,
    pub release: u32,
    pub due: u32,
    pub work: u32,
    // the units that are still to be served
    pub left: u32,
    // the clock at which the last unit was served; 0 while the job is unfinished, as callers own and read the record
    pub finish: u32,
    pub late: bool,
}

impl JobRecord {
    // Whether the job is of the task and the class; both are always compared, which is quicker over a log than to stop at one.
    pub(crate) fn is_kind(&self, task: u8, class: Class) -> bool
        ensures { result ≡ is_kind task class self.now }
    {
        (self.task == task) & (class == self.class)
    }

    // One unit less; the last one ends the job at the clock.
    pub(crate) fn serve_unit(&mut self, clock: u32)
        requires { 0 < self.old.left }
        ensures { self.new ≡ unit_served clock self.old }
    {
        if self.left == 1 {
            self.finish = clock;
        }
        self.left -= 1;
    }

    // Marks the job if it is late at the clock.
    pub(crate) fn mark(&mut self, clock: u32)
        ensures { self.new ≡ marked clock self.old }
    {
        let end = if self.left == 0 { self.finish } else { clock };
        if self.due < end {
            self.late = true;
        }
    }
}
