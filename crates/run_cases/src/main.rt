//! Calls of the top as cases: of each its words, files and faults, and the status, the outputs and the counts
//! that are wanted.
//!
//! - `draft` and `piece`: how a case is written.
//! - `misread`: why a line isn't read.
//! - `case` and `came`: a call and what is wanted of it, and what came of it.
//! - `outcome`: what becomes of a case, and what is told of it.
#![tactic(auto)]

mod came;
mod case;
mod draft;
mod misread;
mod outcome;
mod piece;

use outcome::Cases;
use row_lines::{Form, judge_rows};
use std::io;

fn main(rt: HostRuntime) -> io::Result<()> {
    judge_rows(&rt, Form::Titled("case "), &mut Cases)
}
