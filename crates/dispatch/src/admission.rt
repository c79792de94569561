// Whether a model allows one more job.
ghost use Rattle.std.specs.Prelude.{◌≡◌, ◌+◌, ◌-◌, ◌≤◌, Decides, nat_le};
ghost use Rattle.dispatch.specs.Records.{Allowed, is_kind, WindowsAllow};

use crate::record::JobRecord;
use arrival::ArrivalModel;
use arrival::class::Class;

// A job of the task and class that would be released at the clock.
#[derive(Drop)]
pub(crate) struct Admission<'a, M> {
    pub(crate) model: &'a M,
    pub(crate) task: u8,
    pub(crate) class: Class,
    pub(crate) clock: u32,
    ghost clock_end: { clock ≤ 1000000000 },
}

impl<'a, M: ArrivalModel> Admission<'a, M> {
    // The length of the half-open window from a release up to and with the clock.
    fn window(&self, release: u32) -> u32
        ensures { result ≡ 1 + (self.now.clock - release) }
    {
        1 + self.clock.saturating_sub(release)
    }

    // Whether `same` jobs and one more stay within the count of a window of the length.
    fn within(&self, same: usize, length: u32) -> bool
        ensures { result ≡ nat_le (same + 1) ((M.meaning self.now.model.now).count self.now.task self.now.class length) }
    {
        same < self.model.count(self.task, self.class, length) as usize
    }

    // Whether, from each record of the task and class on, one more at the clock stays within the count of the window.
    fn windows_allow(&self, log: &[JobRecord]) -> bool
        ensures { Decides result (WindowsAllow ((M.meaning self.now.model.now).count self.now.task self.now.class) self.now.clock (is_kind self.now.task self.now.class) log.now) }
    {
        // newest first, each with the number of those of the task and class that are newer
        log.iter()
            .rev()
            .filter(|g| g.is_kind(self.task, self.class))
            .enumerate()
            .all(|(newer, g)| self.within(newer + 1, self.window(g.release)))
    }

    // Whether the model allows the job behind the jobs of the log.
    pub(crate) fn allowed(&self, log: &[JobRecord]) -> bool
        ensures { Decides result (Allowed ((M.meaning self.now.model.now).count self.now.task self.now.class) self.now.clock (is_kind self.now.task self.now.class) log.now) }
    {
        self.within(0, 1) && self.windows_allow(log)
    }
}
