//! Bodies of functions as rows, each with how the messages of its workers are paired, or with its first fault.
//!
//! A row is the body of a function, ` | ` and what is wanted: `PAIRS`, or `PAIRS | ORDER`, or a fault. The function has a parameter
//! `boolean q`, and beside it the file has what [`trial::BEHIND`] shows.
//!
//! - An event is `W:N`, with the number of its worker, 0 of the default one, and its number there, from 0.
//! - PAIRS: `S-R` for each message, of the events that send and receive it, in text order of the sends; or `none`.
//! - ORDER: events of which each has a lesser rank than the next one.
//! - A fault: its code, `@` and the byte of the body at which it stands, or `name` where it stands at the function's first token; and behind it
//!   what it keeps: how many are sent and received, as `2,1`, a count, a shape, or the events of a ring.
//!
//! A row may also be a body, ` | plan CHANGE | ` and `right` or `wrong`: whether the plan of the function, with the change, is still one. A
//! CHANGE is `made`, which is none; `without S`, `twice S`, `later S`, of the pair whose send is S; `exchanged S S`, of the receives of two
//! pairs; `turned`, of the order of all pairs; `ranked E E`, the rank of the second event for the first; `doubled`, of all ranks; or
//! `longer` or `shorter`, a rank more or less.
//!
//! A body may close the function and begin others, which are planned too: pairs and faults are those of all functions of the file.
//!
//! - `row`: what is told of a row.
//! - `changes`: plans that are changed by hand.
//! - `trial`: what the product says of a file.
//! - `shown`: plans and faults, written out.
#![tactic(auto)]

mod changes;
mod row;
mod shown;
mod trial;

use row::Bodies;
use row_lines::{Form, judge_rows};
use std::io;

fn main(rt: HostRuntime) -> io::Result<()> {
    judge_rows(&rt, Form::Lines, &mut Bodies)
}
