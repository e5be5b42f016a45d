//! How many rows there are, and what is told of each.

ghost use Rattle.std.specs.Prelude.{◌≡◌};
ghost use Rattle.row_lines.specs.Counting.{counted, one_more_if, with_row};

use crate::row::Row;
use crate::told::Told;
use std::io;

/// How many rows there are.
#[derive(Clone, Copy)]
pub(crate) struct Tally {
    /// Those that are to hold.
    rows: u64,
    /// Those of them that fail.
    failing: u64,
    /// Those that are wrong on purpose.
    wrong: u64,
    /// Those of these that hold.
    holding: u64,
}

impl Tally {
    /// No row was counted.
    pub(crate) fn new() -> Tally {
        Tally {
            rows: 0,
            failing: 0,
            wrong: 0,
            holding: 0,
        }
    }

    /// Counts a row, and tells it unless it is to hold and does.
    pub(crate) fn add(&mut self, rt: &impl Print, row: &Row, told: &Told) -> io::Result<()>
        ensures { self.new ≡ counted row.now.is_wrong told.now self.old }
    {
        if !told.counts() {
            return Ok(());
        }
        let fails = told.is_failing();
        self.count(row.is_wrong, fails);
        if fails || row.is_wrong {
            return tell_row(rt, row, told);
        }
        Ok(())
    }

    fn count(&mut self, is_wrong: bool, fails: bool)
        ensures { self.new ≡ with_row is_wrong fails self.old }
    {
        if is_wrong {
            self.wrong = one_more_if(true, self.wrong);
            self.holding = one_more_if(!fails, self.holding);
        } else {
            self.rows = one_more_if(true, self.rows);
            self.failing = one_more_if(fails, self.failing);
        }
    }

    /// Tells the counts.
    pub(crate) fn tell(self, rt: &impl Print) -> io::Result<()> {
        let Tally {
            rows,
            failing,
            wrong,
            holding,
        } = self;
        println!(rt;
            "{rows} rows, {failing} fail; {wrong} are wrong on purpose, {holding} of them hold"
        )
    }
}

/// One more where it is so, up to the last value of the count.
fn one_more_if(is_so: bool, n: u64) -> u64
    ensures { result ≡ one_more_if is_so n }
{
    if is_so && n < u64::MAX { n + 1 } else { n }
}

/// Tells where a row begins, whether it fails, is wrong on purpose, or holds though it is, and the reasons.
fn tell_row(rt: &impl Print, row: &Row, told: &Told) -> io::Result<()> {
    let what = what_of(told.is_failing(), row.is_wrong);
    let number = row.number;
    let head = row.head.as_str();
    let (lines, end) = told.lines();
    print!(rt; "line {number} {what}: {head}\n{lines}{end}")
}

fn what_of(fails: bool, is_wrong: bool) -> &'static str {
    match (fails, is_wrong) {
        (true, false) => "fails",
        (true, true) => "is wrong",
        (false, _) => "holds",
    }
}
