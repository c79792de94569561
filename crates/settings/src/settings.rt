// What a settings file fills besides the table: the models of its tasks, and its questions.
ghost use Rattle.std.specs.Prelude.{◌≡◌, ◌≤◌, true, length, is_ok};
ghost use Rattle.file_format.specs.File.{settings};
ghost use Rattle.file_format.specs.Settings.{Settings as FileSettings};
ghost use Rattle.settings.specs.Read.{AreBytesOf, Empty, ReadsFile};
ghost use Rattle.settings.specs.Values.{settings_of};
ghost use Rattle.tables.specs.Tables.{tasks_of};

use crate::reader::Reader;
use arrival::chained::ChainedModel;
use base::bounded::BoundedList;
use entries::fault::FileFault;
use entries::question::Question;
use pjd::{PjdCurves, PjdModel};
use staircase::stairs::Staircase;
use staircase::{StaircaseModel, Staircases};
use tables::table::{MAX_TASKS, OpenTable};
use tables::task::Task;

// How many questions a file has at most.
pub const MAX_QUESTIONS: usize = 16;

#[derive(Drop)]
pub struct Settings<'a> {
    // of the first tasks
    pub(crate) curves: BoundedList<PjdCurves, MAX_TASKS>,
    // of the tasks behind them; their points lie in the file
    pub(crate) staircases: BoundedList<Staircases<'a>, MAX_TASKS>,
    pub(crate) questions: BoundedList<Question, MAX_QUESTIONS>,
}

impl<'a> Settings<'a> {
    // Models without tasks, and no question.
    pub fn new() -> Settings<'a>
        ensures { Empty result }
    {
        let curves = PjdCurves {
            typical: None,
            overload: None,
        };
        let empty = Staircase::empty();
        let staircases = Staircases {
            typical: empty,
            overload: empty,
        };
        let question = Question {
            task: 0,
            jobs: 0,
            span: 0,
        };
        Settings {
            curves: BoundedList::new(curves),
            staircases: BoundedList::new(staircases),
            questions: BoundedList::new(question),
        }
    }

    // Reads the whole file into the table and these settings, in place, as their owner holds them, or refuses it with its
    // first fault: the table then stays, and the models hold no task.
    #[tactic(auto, using(crate::proofs::Reading::are_bytes, crate::proofs::Reading::same_settings, crate::proofs::Reading::no_bytes))]
    pub fn read(&mut self, file: &'a [u8], table: &mut OpenTable) -> Result<(), FileFault>
        ensures answer { ReadsFile (settings file.now) result table.old table.new self.new }
        ensures accepted { is_ok result ≡ true → AreBytesOf file.now (settings_of (tasks_of table.new) self.new) }
        ensures spelled { (s : FileSettings) → AreBytesOf file.now s → (is_ok result ≡ true) × (settings_of (tasks_of table.new) self.new ≡ s) }
    {
        let filler = table.tasks()[0];
        match Reader::new(file, filler).run() {
            Ok((tasks, settings)) => {
                *table = OpenTable::from_list(tasks).unwrap();
                *self = settings;
                Ok(())
            }
            Err(f) => {
                *self = Settings::new();
                Err(f)
            }
        }
    }

    pub fn questions(&self) -> &[Question]
        ensures value { result.now ≡ self.now.questions }
        ensures bound { length result.now ≤ 16 }
    {
        self.questions.as_slice()
    }

    // The model of the first tasks.
    pub fn pjd_model(&self) -> PjdModel<'_>
        ensures value { result.tasks.now ≡ self.now.curves }
        ensures bound { length result.tasks.now ≤ 32 }
    {
        PjdModel::new(self.curves.as_slice())
    }

    // The model of the tasks behind them.
    pub fn staircase_model(&self) -> StaircaseModel<'_>
        ensures value { result.tasks.now ≡ self.now.staircases }
        ensures bound { length result.tasks.now ≤ 32 }
    {
        StaircaseModel::new(self.staircases.as_slice())
    }

    // The model of all tasks.
    pub fn model(&self) -> ChainedModel<PjdModel<'_>, StaircaseModel<'_>>
        ensures first { result.first.tasks.now ≡ self.now.curves }
        ensures second { result.second.tasks.now ≡ self.now.staircases }
        ensures first_bound { length result.first.tasks.now ≤ 32 }
        ensures second_bound { length result.second.tasks.now ≤ 32 }
    {
        ChainedModel {
            first: self.pjd_model(),
            second: self.staircase_model(),
        }
    }
}
