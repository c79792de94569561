// The steps of a reader.
ghost use Rattle.std.specs.Prelude.{◌≡◌, ◌<◌, ◌≤◌, length, IfOk};
ghost use Rattle.base.specs.Faults.{in_numbers};
ghost use Rattle.entries.specs.Values.{fault_of};
ghost use Rattle.file_format.specs.File.{settings};
ghost use Rattle.settings.specs.Go.{Stepped, go};
ghost use Rattle.settings.specs.Values.{settings_of};
ghost use Rattle.settings.specs.declared.reader.Section.TheVariants.{Start, Tasks, Curves, Typical, Overload, Questions};

use super::{Reader, Section};
use crate::cursor::Cursor;
use crate::section::FileSection;
use crate::settings::{MAX_QUESTIONS, Settings};
use base::bounded::BoundedList;
use entries::fault::{Cause, FileFault};
use staircase::Staircases;
use staircase::stairs::Staircase;
use tables::table::MAX_TASKS;
use tables::task::Task;

impl<'a> Reader<'a> {
    // A reader at the start of a file; `filler` stands where no task is held.
    pub(crate) fn new(file: &'a [u8], filler: Task) -> Reader<'a>
        ensures { go result ≡ settings file.now }
    {
        Reader {
            cursor: Cursor::new(file),
            section: Section::Start,
            due: 0,
            tasks: BoundedList::new(filler),
            typical: Staircase::empty(),
            settings: Settings::new(),
        }
    }

    // Reads on to the end of the file, or to its first fault: the tasks, and what else was read.
    pub(crate) fn run(mut self) -> Result<(BoundedList<Task, MAX_TASKS>, Settings<'a>), FileFault>
        ensures value { in_numbers (λ p. settings_of p.0 p.1) fault_of result ≡ go self.entry }
        ensures some { IfOk result (λ p. 1 ≤ length p.0) }
    {
        while self.section != Section::End {
            self.step()?;
        }
        Ok((self.tasks, self.settings))
    }

    // Takes the next count or entry, or finds the end: a state machine, changed in place.
    fn step(&mut self) -> Result<(), FileFault>
        ensures { Stepped self.old self.new result }
    {
        match (self.section, self.due) {
            (Section::Start, _) => self.open_tasks(),
            (Section::Tasks, 0) => self.open_curves(),
            (Section::Tasks, _) => self.take_task(),
            (Section::Curves, 0) => self.open_staircases(),
            (Section::Curves, _) => self.take_curves(),
            (Section::Typical, 0) => self.open_questions(),
            (Section::Typical, _) => self.take_typical(),
            (Section::Overload, _) => self.take_overload(),
            (Section::Questions, 0) => self.close(),
            (Section::Questions, _) => self.take_question(),
            (Section::End, _) => Ok(()),
        }
    }

    fn open_tasks(&mut self) -> Result<(), FileFault>
        requires { self.old.section ≡ Start }
        ensures { Stepped self.old self.new result }
    {
        self.due = self.cursor.count(
            FileSection::Tasks,
            Cause::TaskCount,
            |n| 1 <= n && n as usize <= MAX_TASKS,
        )?;
        self.section = Section::Tasks;
        Ok(())
    }

    fn take_task(&mut self) -> Result<(), FileFault>
        requires { (self.old.section ≡ Tasks) × (0 < self.old.due) }
        ensures { Stepped self.old self.new result }
    {
        self.cursor.push(FileSection::Tasks, &mut self.tasks)?;
        self.due -= 1;
        Ok(())
    }

    fn open_curves(&mut self) -> Result<(), FileFault>
        requires { (self.old.section ≡ Tasks) × (self.old.due ≡ 0) }
        ensures { Stepped self.old self.new result }
    {
        let tasks = self.tasks.len();
        self.due = self.cursor.count(
            FileSection::Curves,
            Cause::CurveCount,
            |n| n as usize <= tasks,
        )?;
        self.section = Section::Curves;
        Ok(())
    }

    fn take_curves(&mut self) -> Result<(), FileFault>
        requires { (self.old.section ≡ Curves) × (0 < self.old.due) }
        ensures { Stepped self.old self.new result }
    {
        self.cursor
            .push(FileSection::Curves, &mut self.settings.curves)?;
        self.due -= 1;
        Ok(())
    }

    fn open_staircases(&mut self) -> Result<(), FileFault>
        requires { (self.old.section ≡ Curves) × (self.old.due ≡ 0) }
        ensures { Stepped self.old self.new result }
    {
        let tasks = self.tasks.len();
        let curves = self.settings.curves.len();
        self.due = self.cursor.count(
            FileSection::Staircases,
            Cause::StaircaseCount,
            |n| curves + n as usize == tasks,
        )?;
        self.section = Section::Typical;
        Ok(())
    }

    fn take_typical(&mut self) -> Result<(), FileFault>
        requires { (self.old.section ≡ Typical) × (0 < self.old.due) }
        ensures { Stepped self.old self.new result }
    {
        let entry = 2 * self.settings.staircases.len() + 1;
        self.typical = self.cursor.entry(FileSection::Staircases, entry)?;
        self.section = Section::Overload;
        Ok(())
    }

    fn take_overload(&mut self) -> Result<(), FileFault>
        requires { self.old.section ≡ Overload }
        ensures { Stepped self.old self.new result }
    {
        let entry = 2 * self.settings.staircases.len() + 2;
        let overload = self.cursor.entry(FileSection::Staircases, entry)?;
        let typical = self.typical;
        self.settings
            .staircases
            .push(Staircases { typical, overload })
            .unwrap();
        self.due -= 1;
        self.section = Section::Typical;
        Ok(())
    }

    fn open_questions(&mut self) -> Result<(), FileFault>
        requires { (self.old.section ≡ Typical) × (self.old.due ≡ 0) }
        ensures { Stepped self.old self.new result }
    {
        self.due = self.cursor.count(
            FileSection::Questions,
            Cause::QuestionCount,
            |n| n as usize <= MAX_QUESTIONS,
        )?;
        self.section = Section::Questions;
        Ok(())
    }

    fn take_question(&mut self) -> Result<(), FileFault>
        requires { (self.old.section ≡ Questions) × (0 < self.old.due) }
        ensures { Stepped self.old self.new result }
    {
        self.cursor
            .push(FileSection::Questions, &mut self.settings.questions)?;
        self.due -= 1;
        Ok(())
    }

    // The file must end behind its last question.
    fn close(&mut self) -> Result<(), FileFault>
        requires { (self.old.section ≡ Questions) × (self.old.due ≡ 0) }
        ensures { Stepped self.old self.new result }
    {
        if !self.cursor.is_at_end() {
            return Err(self.cursor.fault(Cause::Trailing, FileSection::Rest, 0));
        }
        self.section = Section::End;
        Ok(())
    }
}
