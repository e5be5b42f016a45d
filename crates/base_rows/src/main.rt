//! Texts, places, inputs, outputs and folders as rows.
//!
//! A row is `row TITLE`, then lines, each a question, ` => ` and its answer; or `real NAME` and lines about a folder of the system.
//! The modules say which questions there are.
//!
//! - `row`: a row, from its first line to its last.
//! - `texts` and `points`: texts, their owners, places in texts, and code points by their places.
//! - `inputs` and `drips`: lines of an input, and an input that comes byte by byte.
//! - `outputs` and `narrow`: what is written to an output, and a stream that takes byte by byte.
//! - `folders`: files of a folder in memory, and how many entries a folder may have (`entries`).
//! - `real`: a folder of the system.
//! - `words`: the words and strings of a line.
#![tactic(auto)]

mod drips;
mod entries;
mod folders;
mod inputs;
mod narrow;
mod outputs;
mod points;
mod real;
mod row;
mod texts;
mod words;

use row::Base;
use row_lines::{Form, judge_rows};
use std::io;

fn main(rt: HostRuntime) -> io::Result<()> {
    judge_rows(&rt, Form::Titled("row "), &mut Base { rt: &rt })
}
