//! The needs of files, modules, functions, workers and anonymous functions, met: a call for each.
//!
//! What it means that a need is met is said in `check_words` (`specs/Units.antt`, `specs/Calls.antt`); what the calls change is the work of a
//! `Checker` of `check_work`. Each does nothing where the work has stopped, and else notes what came of it. Where the parts that it needs
//! aren't there, which no table of needs brings about, it is as if memory were wanted.
//!
//! - [`enters_file`], [`ends_module`]: files and modules.
//! - [`names_parameter`], [`ends_function`], [`ends_value_function`]: functions.
//! - [`begins_worker`], [`ends_worker`]: workers, which capture variables of the initial part (`specs/Captures.antt`).
//! - [`begins_anonymous`], [`has_parameter`]: anonymous functions.
//! - [`new_number`], [`empty_unit`], [`open_unit`], [`close_unit`], [`finished`], [`put_parameter`], [`Capture`], [`find_captures`], [`capture_all`]:
//!   units as they are opened, filled and closed, for the needs of `needs_of_functions` too.
#![tactic(auto)]

mod anonymous;
mod captures;
mod endings;
mod functions;
mod modules;
mod parameters;
mod units;
mod workers;

pub use anonymous::{begins_anonymous, has_parameter, put_parameter};
pub use captures::{Capture, capture_all, find_captures};
pub use functions::{ends_function, ends_value_function};
pub use modules::{ends_module, enters_file};
pub use parameters::names_parameter;
pub use units::{close_unit, empty_unit, finished, new_number, open_unit};
pub use workers::{begins_worker, ends_worker};
