//! What becomes of a case, and what is told of it.
ghost use Rattle.row_lines.specs.Telling.{FailsUnless};
ghost use Rattle.run_cases.specs.Judged.{IsJudged};
ghost use Rattle.run_cases.specs.Wanted.{AsWanted};

use crate::came::{Came, came_of, is_as_wanted, is_dir_wanted, is_text_wanted};
use crate::case::{Case, Wanted, WantedDir, WantedText};
use crate::draft::Draft;
use crate::misread::Misread;
use bal_base::{Memory, Stop};
use row_lines::{Judge, Row, Told};

/// Rows of cases.
#[derive(Clone, Copy)]
pub struct Cases;

impl Judge for Cases {
    fn judge(&mut self, row: &Row, told: &mut Told) {
        let lines = row.rest.as_slice();
        let mut asks = false;
        for line in lines {
            if is_question(line.as_str()) {
                asks = true;
                judge_question(lines, line.as_str(), told);
            }
        }
        if !asks {
            judge_lines(lines, "", told);
        }
    }
}

fn is_question(line: &str) -> bool {
    line.starts_with("ask ")
}

/// Judges a question, and tells it where it is the first that fails.
fn judge_question(lines: &[String], question: &str, told: &mut Told) {
    if told.is_failing() {
        return;
    }
    judge_lines(lines, question, told);
    if told.is_failing() {
        told.fails(question);
    }
}

/// Judges the case of these lines, of whose questions this one alone counts.
fn judge_lines(lines: &[String], question: &str, told: &mut Told) {
    let mut draft = Draft::new(told.alloc());
    for line in lines {
        if counts(line.as_str(), question) {
            if let Err(why) = draft.line(line.as_str()) {
                misread(line.as_str(), why, told);
                return;
            }
        }
    }
    match draft.finish() {
        Ok(case) => judge_case(case, told),
        Err(why) => misread("at its end", why, told),
    }
}

fn counts(line: &str, question: &str) -> bool {
    !is_question(line) || line == question
}

fn misread(line: &str, why: Stop<Misread>, told: &mut Told) {
    match why {
        Stop::Fault(why) => told.misread(line, why.text()),
        Stop::Memory => told.memory(),
    }
}

/// Makes the call of a case and compares.
fn judge_case(case: Case, told: &mut Told)
    ensures { IsJudged case told.old told.new }
{
    let Case { call, wanted } = case;
    match came_of(told.alloc(), call) {
        Ok(came) => compare(&wanted, &came, told),
        Err(Memory) => told.memory(),
    }
}

/// Compares what is wanted with what came.
fn compare(wanted: &Wanted, came: &Came, told: &mut Told)
    ensures { FailsUnless (AsWanted wanted.now came.now) told.old told.new }
{
    if !is_as_wanted(wanted, came) {
        tell_differences(wanted, came, told);
        told.differs();
    }
}

/// Tells each part that is not as it is wanted.
fn tell_differences(wanted: &Wanted, came: &Came, told: &mut Told) {
    told.number("status", wanted.status, came.status);
    tell_output("stdout", &wanted.stdout, came.stdout.as_slice(), told);
    tell_output("stderr", &wanted.stderr, came.stderr.as_slice(), told);
    tell_dir(wanted, came, told);
    tell_count("spent", wanted.counts.spent, came.counts.spent, told);
    tell_count("turns", wanted.counts.turns, came.counts.turns, told);
}

fn tell_output(name: &str, wanted: &WantedText, came: &[u8], told: &mut Told) {
    if !is_text_wanted(wanted, came) {
        told.bytes(name, wanted.text(), came);
    }
}

fn tell_count(name: &str, wanted: Option<u64>, came: u64, told: &mut Told) {
    if let Some(wanted) = wanted {
        told.number(name, wanted, came);
    }
}

fn tell_dir(wanted: &Wanted, came: &Came, told: &mut Told) {
    if is_dir_wanted(&wanted.dir, &came.dir) {
        return;
    }
    let wanted = match &wanted.dir {
        WantedDir::Named(name) => name.as_str(),
        WantedDir::Missing | WantedDir::Any => "none",
    };
    let came = match &came.dir {
        Some(dir) => dir.as_str(),
        None => "none",
    };
    told.other("dir", wanted, came);
}
