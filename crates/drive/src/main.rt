// Drives two executions of the shipped settings, and prints each call with its answer, the records that are left, and the bound
// that the question gives.
#![tactic(auto)]

use analysis::question::ask;
use arrival::ArrivalModel;
use arrival::class::Class;
use dispatch::record::JobRecord;
use dispatch::run::Run;
use dispatch::run::ends::{end, start};
use settings::settings::Settings;
use std::io::Read;
use tables::table::{ClosedTable, OpenTable};
use tables::task::Task;

// What is done to a run.
#[derive(Clone, Copy)]
enum Call {
    Release { task: u8, class: Class, work: u32 },
    Ticks(u32),
    // prints the records of the jobs entered
    Show,
}

const OVERLOAD_OF_0: Call = Call::Release {
    task: 0,
    class: Class::Overload,
    work: 2,
};

const OVERLOAD_OF_1: Call = Call::Release {
    task: 1,
    class: Class::Overload,
    work: 3,
};

const TYPICAL_OF_2: Call = Call::Release {
    task: 2,
    class: Class::Typical,
    work: 4,
};

// Overload of task 0 at the clocks 0, 19 and 20: the model allows one release in any 20 ticks.
const TOO_EARLY: [Call; 6] = [
    OVERLOAD_OF_0,
    Call::Ticks(19),
    OVERLOAD_OF_0,
    Call::Ticks(1),
    OVERLOAD_OF_0,
    Call::Show,
];

// All three tasks at once, with full work.
const TOGETHER: [Call; 7] = [
    OVERLOAD_OF_0,
    OVERLOAD_OF_1,
    TYPICAL_OF_2,
    Call::Ticks(8),
    Call::Show,
    Call::Ticks(1),
    Call::Show,
];

// The places of a log before anything is entered.
const BLANK: JobRecord = JobRecord {
    task: 0,
    class: Class::Typical,
    release: 0,
    due: 0,
    work: 0,
    left: 0,
    finish: 0,
    late: false,
};

// A run with its log and its model; each call of it is printed with the answer.
struct Driver<'a, R, M> {
    rt: &'a R,
    model: &'a M,
    run: Run,
    log: &'a mut [JobRecord],
}

impl<'a, R: Print, M: ArrivalModel> Driver<'a, R, M> {
    fn release(&mut self, task: u8, class: Class, work: u32) -> anyhow::Result<()> {
        let clock = self.run.clock();
        print!(self.rt; "clock {clock}: release {task} {class} {work}: ")?;
        match self.run.release(self.model, self.log, task, class, work) {
            Ok(count) => println!(self.rt; "entered, {count} of the task")?,
            Err(refusal) => println!(self.rt; "{refusal}")?,
        }
        Ok(())
    }

    fn ticks(&mut self, count: u32) -> anyhow::Result<()> {
        for _ in 0..count {
            let clock = self.run.clock();
            print!(self.rt; "clock {clock}: tick: ")?;
            match self.run.tick(self.log) {
                Ok(Some(task)) => println!(self.rt; "task {task}")?,
                Ok(None) => println!(self.rt; "idle")?,
                Err(refusal) => println!(self.rt; "{refusal}")?,
            }
        }
        Ok(())
    }

    fn show(&self) -> anyhow::Result<()> {
        let clock = self.run.clock();
        for record in self.log.iter().take(self.run.entered()) {
            let JobRecord {
                task,
                release,
                due,
                left,
                finish,
                late,
                ..
            } = *record;
            println!(self.rt;
                "clock {clock}: job of {task}, released {release}, due {due}, left {left}, finish {finish}, late {late}"
            )?;
        }
        Ok(())
    }

    fn play(&mut self, calls: &[Call]) -> anyhow::Result<()> {
        for call in calls {
            // The calls are data: they are printed beside their answers.
            match *call {
                Call::Release { task, class, work } => self.release(task, class, work)?,
                Call::Ticks(count) => self.ticks(count)?,
                Call::Show => self.show()?,
            }
        }
        Ok(())
    }
}

// One execution, from a run just started to its end; the table comes back.
fn execute<M: ArrivalModel>(
    rt: &impl Print,
    table: ClosedTable,
    model: &M,
    calls: &[Call],
) -> anyhow::Result<ClosedTable> {
    let (run, token) = start(table);
    let mut driver = Driver {
        rt,
        model,
        run,
        log: &mut [BLANK; 8],
    };
    let played = driver.play(calls);
    let Driver {
        rt: _,
        model: _,
        run,
        log,
    } = driver;
    let (table, late) = end(run, token, log);
    played?;
    println!(rt; "late jobs: {late}")?;
    Ok(table)
}

// How many of ten consecutive jobs of task 2 within 90 ticks can be late.
fn bound<'a, M: ArrivalModel>(
    rt: &impl Print,
    table: &'a ClosedTable,
    model: &'a M,
) -> anyhow::Result<()> {
    let mut cells = [0; 64];
    match ask(table, model, 2, 10, 90, &mut cells) {
        Ok(count) => println!(rt;
            "of any 10 jobs of task 2 within 90 ticks, late at most: {count}"
        )?,
        Err(refusal) => println!(rt; "{refusal}")?,
    }
    Ok(())
}

// Both executions, and the bound.
fn both(rt: &impl Print, table: ClosedTable, settings: &Settings) -> anyhow::Result<()> {
    let model = settings.model();
    let table = execute(rt, table, &model, &TOO_EARLY)?;
    let table = execute(rt, table, &model, &TOGETHER)?;
    bound(rt, &table, &model)
}

fn main(rt: HostRuntime) -> anyhow::Result<()> {
    let mut file = Vec::new(rt.alloc());
    let _ = rt.stdin().read_to_end(&mut file)?;
    let mut table = OpenTable::new(Task::new(1, 1).unwrap());
    let mut settings = Settings::new();
    if settings.read(file.as_slice(), &mut table).is_err() {
        println!(rt; "these are no settings")?;
        return Ok(());
    }
    both(&rt, table.close(), &settings)
}
