//! Texts as rows, each with what is read of it and as which tree.
//!
//! - `row`: a row, and what it wants.
//! - `outcome`: what becomes of a row, and what is told of it.
//! - `reading`: a text, and what is read of it.
//! - `files`: what is read, in a file.
//! - `operands`: the parentheses round operands.
//! - `tokens`: rows of tokens.
#![tactic(auto)]

mod files;
mod operands;
mod outcome;
mod reading;
mod row;
mod tokens;

use outcome::Texts;
use row_lines::{Form, judge_rows};
use std::io;

fn main(rt: HostRuntime) -> io::Result<()> {
    judge_rows(&rt, Form::Lines, &mut Texts)
}
