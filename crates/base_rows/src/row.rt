//! Rows, from their first line to their last.

use crate::entries::entries;
use crate::folders::folder;
use crate::inputs::input;
use crate::outputs::output;
use crate::real::real_row;
use crate::words::{Misread, Read, Words, refuse};
use crate::{points, texts};
use bal_base::Stop;
use row_lines::{Judge, Row, Told};

/// Rows of the ground.
#[derive(Clone, Copy)]
pub struct Base<'a> {
    pub rt: &'a HostRuntime,
}

impl Judge for Base<'_> {
    fn judge(&mut self, row: &Row, told: &mut Told) {
        match row.rest.as_slice() {
            [first, rest @ ..] => match first.as_str().strip_prefix("real ") {
                Some(name) => real_row(self.rt, name, rest, told),
                None => judge_lines(row.rest.as_slice(), told),
            },
            [] => told.fails("it asks nothing"),
        }
    }
}

fn judge_lines(lines: &[String], told: &mut Told) {
    for line in lines {
        judge_line(line.as_str(), told);
    }
}

fn judge_line(line: &str, told: &mut Told) {
    match line.rsplit_once(" => ") {
        Some((question, wanted)) => {
            let came = answer_to(Words::of(told.alloc(), question));
            tell(question, wanted, came, told);
        }
        None => told.misread(line, Misread::NotALine.text()),
    }
}

/// Compares an answer with the one that is wanted.
pub fn tell(question: &str, wanted: &str, came: Read<String>, told: &mut Told) {
    match came {
        Ok(came) => told.text(question, wanted, came.as_str()),
        Err(Stop::Fault(why)) => told.misread(question, why.text()),
        Err(Stop::Memory) => told.memory(),
    }
}

fn answer_to(question: Words<'_>) -> Read<String> {
    let mut words = question;
    let answer = answer(&mut words)?;
    if !words.is_done() {
        return refuse(Misread::NotALine);
    }
    Ok(answer)
}

fn answer(words: &mut Words<'_>) -> Read<String> {
    match words.word() {
        "place" => texts::place(words),
        "order" => texts::order(words),
        "text" => texts::text(words),
        "owners" => texts::owners(words),
        "rounds" => texts::rounds(words),
        "size" => texts::size(words),
        "join" => points::join(words),
        "length" => points::length(words),
        "point" => points::point(words),
        "part" => points::part(words),
        "long" => points::long(words),
        "places" => points::places(words),
        "input" => input(words),
        "output" => output(words),
        "folder" => folder(words),
        "entries" => entries(words),
        _ => refuse(Misread::NotALine),
    }
}
