// The entries of each kind. Numbers are unsigned, highest byte first.
ghost use Rattle.std.specs.Prelude.{◌≡◌, ◌+◌, ◌≤◌, length, Ok};
ghost use Rattle.base.specs.Faults.{given, in_numbers};
ghost use Rattle.file_format.specs.Entries.{curve_at, curve_ok, curves_entry, question_entry, staircase_entry, task_entry};
ghost use Rattle.file_format.specs.Settings.{Curves, Question as Asked};
ghost use Rattle.pjd.specs.Curves.{fault_number};
ghost use Rattle.staircase.specs.Stairs.{Stairs};
ghost use Rattle.staircase.specs.Values.{fault_number as stair_fault_number, stairs_of};
ghost use Rattle.tables.specs.Tasks.{Times, times_of};
ghost use Rattle.entries.specs.Values.{cause_number, curve_of, curves_of, question_of};
ghost use Rattle.entries.specs.Within.{curves_within, question_within, staircase_within, task_within};

use super::{CURVES_SIZE, Entry, HEAD_SIZE, QUESTION_SIZE, TASK_SIZE};
use crate::bytes::bytes_at;
use crate::fault::Cause;
use crate::question::Question;
use pjd::PjdCurves;
use pjd::curve::{CurveFault, PjdCurve};
use staircase::stairs::{Staircase, StaircaseFault};
use tables::task::Task;

impl<'a> Entry<'a> for Task {
    type Fault = Cause;

    ghost fault_number = { cause_number };

    ghost Meaning = { Times };

    ghost meaning = { times_of };

    ghost at_front = { task_entry };

    ghost within = { task_within };

    fn read(bytes: &'a [u8]) -> Result<(Task, usize), Cause> {
        if bytes.len() < TASK_SIZE {
            return Err(Cause::Missing);
        }
        let wcet = u32::from_be_bytes(bytes_at(bytes, 0));
        let deadline = u32::from_be_bytes(bytes_at(bytes, 4));
        Ok((Task::new(wcet, deadline)?, TASK_SIZE))
    }
}

// The curve in the twelve bytes at `at`, an offset as in its definition; three zeros are a class without releases.
fn curve_in(bytes: &[u8], at: usize) -> Result<Option<PjdCurve>, CurveFault>
    requires { at + 12 ≤ length bytes.now }
    ensures { in_numbers curve_of fault_number result ≡ given (curve_ok (curve_at at bytes.now)) 15 (Ok (curve_at at bytes.now)) }
{
    let period = u32::from_be_bytes(bytes_at(bytes, at));
    let jitter = u32::from_be_bytes(bytes_at(bytes, at + 4));
    let distance = u32::from_be_bytes(bytes_at(bytes, at + 8));
    if period == 0 && jitter == 0 && distance == 0 {
        return Ok(None);
    }
    Ok(Some(PjdCurve::new(period, jitter, distance)?))
}

impl<'a> Entry<'a> for PjdCurves {
    type Fault = Cause;

    ghost fault_number = { cause_number };

    ghost Meaning = { Curves };

    ghost meaning = { curves_of };

    ghost at_front = { curves_entry };

    ghost within = { curves_within };

    fn read(bytes: &'a [u8]) -> Result<(PjdCurves, usize), Cause> {
        if bytes.len() < CURVES_SIZE {
            return Err(Cause::Missing);
        }
        let typical = curve_in(bytes, 0)?;
        let overload = curve_in(bytes, 12)?;
        Ok((PjdCurves { typical, overload }, CURVES_SIZE))
    }
}

impl<'a> Entry<'a> for Staircase<'a> {
    type Fault = StaircaseFault;

    ghost fault_number = { stair_fault_number };

    ghost Meaning = { Stairs };

    ghost meaning = { stairs_of };

    ghost at_front = { staircase_entry };

    ghost within = { staircase_within };

    fn read(bytes: &'a [u8]) -> Result<(Staircase<'a>, usize), StaircaseFault> {
        if bytes.len() < HEAD_SIZE {
            return Err(StaircaseFault::Missing);
        }
        let n = u16::from_be_bytes(bytes_at(bytes, 0));
        let repeat = u32::from_be_bytes(bytes_at(bytes, 2));
        let staircase = Staircase::new(n, repeat, &bytes[HEAD_SIZE..])?;
        Ok((staircase, HEAD_SIZE + 4 * n as usize))
    }
}

impl<'a> Entry<'a> for Question {
    type Fault = Cause;

    ghost fault_number = { cause_number };

    ghost Meaning = { Asked };

    ghost meaning = { question_of };

    ghost at_front = { question_entry };

    ghost within = { question_within };

    fn read(bytes: &'a [u8]) -> Result<(Question, usize), Cause> {
        if bytes.len() < QUESTION_SIZE {
            return Err(Cause::Missing);
        }
        let question = Question {
            task: bytes[0],
            jobs: u16::from_be_bytes(bytes_at(bytes, 1)),
            span: u32::from_be_bytes(bytes_at(bytes, 3)),
        };
        Ok((question, QUESTION_SIZE))
    }
}
