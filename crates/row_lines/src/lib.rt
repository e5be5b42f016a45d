//! Rows of text, as programs of rows read them from their input: each asks something of a part of the product, and says what is
//! wanted. A program has a [`Judge`], which reads a row and tells what is not as it wants; [`judge_rows`] does the rest.
//!
//! All programs have one notation:
//!
//! - An empty line, and one that begins with `//`, says nothing.
//! - A row is a line by itself, or begins with a line such as `row TITLE` and goes on to the next one ([`Form`]).
//! - `== wrong`: the rows from here on are wrong on purpose, so that it is seen that each of them fails.
//!   `== right`: those from here on are to hold.
//! - `\n`, `\r`, `\t`, `\"`, `\\` and `\x0f` in a text stand for a byte ([`unescaped`]). A string is such a text in quotes
//!   ([`quoted`]).
//!
//! Of a row that fails it is told on which line it begins, how it begins, and each reason; likewise of a row that is wrong on
//! purpose, whether it fails or, against what is wanted, holds. The last line has the counts.
//!
//! - `reading`, `row` and `tally`: rows from lines, and how many there are.
//! - `told`: what is told of a row.
//! - `words` and `escapes`: words, numbers and strings.
#![tactic(auto)]

mod escapes;
mod reading;
mod row;
mod tally;
mod told;
mod words;

pub use escapes::{escaped, quoted, unescaped};
pub use reading::{Judge, judge_rows};
pub use row::{Form, Row};
pub use told::Told;
pub use words::{first_word, number, numbers};
