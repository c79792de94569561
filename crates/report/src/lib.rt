// The bytes that the program prints.
#![tactic(auto)]

ghost use Rattle.std.specs.Prelude.{◌≡◌, [], ◌∷◌, map, length, IfOk, MatchResult, Some, string_bytes};
ghost use Rattle.entries.specs.Values.{fault_of};
ghost use Rattle.file_format.specs.File.{settings};
ghost use Rattle.settings.specs.Values.{settings_of};
ghost use Rattle.tables.specs.Tables.{tasks_of};
ghost use Rattle.tables.specs.Tasks.{times_of};
ghost use Rattle.report.specs.Lines.{line_fault, printed, refused_line, tasks_line};

use entries::fault::{FileFault, Place};
use settings::settings::Settings;
use std::alloc::{AllocError, Global};
use std::fmt;
use tables::table::OpenTable;
use tables::task::Task;

pub mod answers;

// The line of a refused file.
#[derive(Clone, Copy)]
pub struct RefusalLine {
    fault: FileFault,
}

impl From<FileFault> for RefusalLine {
    ghost from_gives = { λ f r. line_fault r ≡ fault_of f };

    fn from(fault: FileFault) -> RefusalLine {
        RefusalLine { fault }
    }
}

impl fmt::Display for RefusalLine {
    ghost output = { λ l. Some (refused_line (line_fault l)) };

    fn fmt<W: fmt::Write>(&self, f: &mut fmt::Formatter<W>) -> fmt::Result {
        let FileFault { cause, place } = self.fault;
        let Place {
            section,
            entry,
            byte,
        } = place;
        let number = u8::from(cause);
        write!(
            f,
            "refused {number} section {section} entry {entry} byte {byte}\n"
        )
    }
}

// The line of a refused file, as text.
fn refusal(heap: Global, f: FileFault) -> Result<String, AllocError>
    ensures { IfOk result (λ s. string_bytes s ≡ refused_line (fault_of f)) }
{
    RefusalLine::from(f).to_string(heap)
}

// The line of an accepted file: one number, so a type that prints it would be longer.
pub(crate) fn task_count(heap: Global, table: &OpenTable) -> Result<String, AllocError>
    ensures { IfOk result (λ s. string_bytes s ≡ tasks_line (length (tasks_of table.now))) }
{
    format!(in heap; "tasks {}\n", table.tasks().len())
}

// A table for the reader to fill; its one task is replaced.
fn blank_table() -> OpenTable
    ensures { map times_of (tasks_of result) ≡ record { wcet = 1; deadline = 1 } ∷ [] }
{
    OpenTable::new(Task::new(1, 1).unwrap())
}

// What is printed for a file: what `accepted` makes of its settings, or the line of its first fault.
pub(crate) fn print_file<F: FnOnce(OpenTable, &Settings) -> Result<String, AllocError>>(
    heap: Global,
    file: &[u8],
    accepted: F,
) -> Result<String, AllocError>
    requires { F.IsAlwaysCallable accepted }
    ensures { MatchResult (settings file.now)
        (λ s. (table : _) × (held : _) × (settings_of (tasks_of table) held.now ≡ s) × F.post accepted table held result)
        (λ f. IfOk result (λ text. string_bytes text ≡ refused_line f)) }
{
    let mut table = blank_table();
    let mut settings = Settings::new();
    match settings.read(file, &mut table) {
        Ok(()) => accepted(table, &settings),
        Err(f) => refusal(heap, f),
    }
}

// Every byte that the program prints for a settings file.
pub fn report(heap: Global, file: &[u8]) -> Result<String, AllocError>
    ensures { IfOk result (λ s. string_bytes s ≡ printed (settings file.now)) }
{
    print_file(heap, file, |table, _| task_count(heap, &table))
}
