// Releasing a job.
ghost use Rattle.std.specs.Prelude.{◌≡◌, MatchResult, count_by};
ghost use Rattle.base.specs.Tests.{Passed, Refused};
ghost use Rattle.loads.specs.Tables.{table_of};
ghost use Rattle.tables.specs.Tables.{tasks_of};
ghost use Rattle.dispatch.specs.Calls.{release_tests, Released};
ghost use Rattle.dispatch.specs.Records.{is_task};
ghost use Rattle.dispatch.specs.Refusals.{refusal_number};

use super::Run;
use crate::admission::Admission;
use crate::record::JobRecord;
use crate::refusal::Refusal;
use arrival::ArrivalModel;
use arrival::class::Class;
use tables::task::Task;

// How many of the records are of the task.
fn of_task(log: &[JobRecord], task: u8) -> usize
    ensures { result ≡ count_by (is_task task) log.now }
{
    log.iter().map(|g| usize::from(g.task == task)).sum()
}

impl Run {
    // The tests of a release, in their order; the task where all pass.
    fn check_release<M: ArrivalModel>(
        &self,
        model: &M,
        log: &[JobRecord],
        task: u8,
        class: Class,
        work: u32,
    ) -> Result<&Task, Refusal>
        ensures { let tests = release_tests (M.meaning model.now) self.now log.now task class work in
            MatchResult result
            (λ t. Passed tests × (t.now.deadline ≡ (table_of (tasks_of self.now.table)).deadline task))
            (λ e. Refused tests (refusal_number e)) }
    {
        let tasks = self.table.tasks();
        if model.tasks() as usize != tasks.len() {
            return Err(Refusal::OtherTasks);
        }
        let found = tasks.get(task as usize).ok_or(Refusal::NoSuchTask)?;
        if work < 1 || work > found.wcet() {
            return Err(Refusal::WorkOutOfRange);
        }
        if self.entered >= log.len() {
            return Err(Refusal::LogFull);
        }
        let clock = self.clock;
        let job = Admission {
            model,
            task,
            class,
            clock,
        };
        if !job.allowed(&log[..self.entered]) {
            return Err(Refusal::TooManyReleases);
        }
        Ok(found)
    }

    // Enters a job of the task and class, released at the clock, and answers how many jobs of the task are now entered.
    pub fn release<M: ArrivalModel>(
        &mut self,
        model: &M,
        log: &mut [JobRecord],
        task: u8,
        class: Class,
        work: u32,
    ) -> Result<usize, Refusal>
        ensures { Released (M.meaning model.now) self.old log.old task class work result self.new log.new }
    {
        let found = self.check_release(model, log, task, class, work)?;
        log[self.entered] = JobRecord {
            task,
            class,
            release: self.clock,
            due: self.clock + found.deadline(),
            work,
            left: work,
            finish: 0,
            late: false,
        };
        self.entered += 1;
        Ok(of_task(&log[..self.entered], task))
    }
}
