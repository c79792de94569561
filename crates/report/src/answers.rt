// The bytes to print for a settings file with the answers to its questions.
ghost use Rattle.std.specs.Prelude.{◌≡◌, map, IfOk, Ok, Some, string_bytes};
ghost use Rattle.analysis.specs.Refusals.{refusal_number};
ghost use Rattle.base.specs.Faults.{in_numbers};
ghost use Rattle.entries.specs.Values.{question_of};
ghost use Rattle.file_format.specs.File.{settings};
ghost use Rattle.loads.specs.Tables.{table_of};
ghost use Rattle.settings.specs.Values.{settings_of};
ghost use Rattle.tables.specs.Tables.{tasks_of};
ghost use Rattle.theory.specs.Questions.{Answer};
ghost use Rattle.report.specs.Answers.{AnswerLines, PrintsWithAnswers, answer_line, question_line};

use crate::{print_file, task_count};
use analysis::question::ask;
use analysis::refusal::Refusal;
use arrival::ArrivalModel;
use entries::question::Question;
use settings::settings::Settings;
use std::alloc::{AllocError, Global};
use std::fmt;
use tables::table::{ClosedTable, OpenTable};

// How many cells of scratch memory a question is handed.
const CELLS: usize = 16_384;

// The line of a question with its answer.
#[derive(Clone, Copy)]
pub struct AnswerLine {
    pub question: Question,
    pub answer: Result<u16, Refusal>,
}

impl fmt::Display for AnswerLine {
    ghost output = { λ l. Some (answer_line (question_of l.question) (in_numbers (λ a. a) refusal_number l.answer)) };

    fn fmt<W: fmt::Write>(&self, f: &mut fmt::Formatter<W>) -> fmt::Result {
        let Question { task, jobs, span } = self.question;
        match self.answer {
            Ok(count) => write!(f, "{task} {jobs} {span} misses {count}\n"),
            Err(refusal) => write!(f, "{task} {jobs} {span} {refusal}\n"),
        }
    }
}

// The lines of all questions.
fn answers<'a, M: ArrivalModel>(
    heap: Global,
    table: &'a ClosedTable,
    model: &'a M,
    questions: &[Question],
) -> Result<String, AllocError>
    ensures { IfOk result (λ s. AnswerLines (M.meaning model.now) (table_of (tasks_of table.now)) (map question_of questions.now) (string_bytes s)) }
{
    let mut scratch = vec![in heap; 0u16; CELLS]?;
    let cells = scratch.as_mut_slice();
    let mut lines = String::new(heap);
    for question in questions {
        let Question { task, jobs, span } = *question;
        let line = AnswerLine {
            question: *question,
            answer: ask(table, model, task, jobs, span, cells),
        };
        write!(lines, "{line}")?;
    }
    Ok(lines)
}

// What is printed for settings that were read.
fn accepted(heap: Global, table: OpenTable, settings: &Settings) -> Result<String, AllocError>
    ensures { IfOk result (λ s. PrintsWithAnswers (Ok (settings_of (tasks_of table) settings.now)) (string_bytes s)) }
{
    let mut text = task_count(heap, &table)?;
    let closed = table.close();
    let model = settings.model();
    let lines = answers(heap, &closed, &model, settings.questions())?;
    text.push_str(lines.as_str())?;
    Ok(text)
}

// The number of tasks and the answers to the questions of a settings file, or the line of its first fault.
pub fn report_with_answers(heap: Global, file: &[u8]) -> Result<String, AllocError>
    ensures { IfOk result (λ s. PrintsWithAnswers (settings file.now) (string_bytes s)) }
{
    print_file(
        heap,
        file,
        |table, settings| accepted(heap, table, settings),
    )
}
