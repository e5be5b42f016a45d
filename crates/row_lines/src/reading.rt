//! All rows of an input, each read and judged.

use crate::row::{Form, Row, Rows};
use crate::tally::Tally;
use crate::told::Told;
use std::alloc::Global;
use std::io::{self, BufRead, BufReader};

/// What reads rows of one kind.
pub trait Judge {
    /// Reads a row, and tells what is not as it wants. A row of which nothing is told holds.
    fn judge(&mut self, row: &Row, told: &mut Told);
}

/// Judges all rows of the input, tells those that fail or are wrong on purpose, and then how many there are.
pub fn judge_rows<J: Judge>(
    rt: &(impl Print + Input + AllocGlobal),
    form: Form,
    judge: &mut J,
) -> io::Result<()> {
    let mut reading = Reading {
        rows: Rows::new(rt.alloc(), form),
        tally: Tally::new(),
    };
    for line in BufReader::new(rt.alloc(), rt.reader())?.lines(rt.alloc()) {
        reading.line(rt, judge, line)?;
    }
    reading.end(rt, judge)
}

/// The rows so far.
#[derive(Drop)]
struct Reading {
    rows: Rows,
    tally: Tally,
}

impl Reading {
    /// Reads a line.
    fn line<J: Judge>(
        &mut self,
        rt: &(impl Print + AllocGlobal),
        judge: &mut J,
        line: io::Result<String>,
    ) -> io::Result<()> {
        let ended = self.rows.line(line?)?;
        self.row(rt, judge, ended)
    }

    /// Judges a row, if one has ended, and counts it.
    fn row<J: Judge>(
        &mut self,
        rt: &(impl Print + AllocGlobal),
        judge: &mut J,
        ended: Option<Row>,
    ) -> io::Result<()> {
        match ended {
            Some(row) => self.tally.add(rt, &row, &judged(rt.alloc(), judge, &row)),
            None => Ok(()),
        }
    }

    /// Judges the last row, and tells the counts.
    fn end<J: Judge>(mut self, rt: &(impl Print + AllocGlobal), judge: &mut J) -> io::Result<()> {
        let last = self.rows.last();
        self.row(rt, judge, last)?;
        self.tally.tell(rt)
    }
}

/// What is told of a row.
fn judged<J: Judge>(alloc: Global, judge: &mut J, row: &Row) -> Told {
    let mut told = Told::new(alloc);
    if row.has_title {
        judge.judge(row, &mut told);
    } else {
        told.fails("no row begins above it");
    }
    told
}
