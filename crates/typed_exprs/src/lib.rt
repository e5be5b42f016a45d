//! Expressions line by line: where what is read of the operands comes to typed parts, what is read of the whole comes to one, and what is kept is kept.
//!
//! [`lines_are_typed`]: operators, names, fields. [`prefixes_are_typed`]: prefixes, casts, tests. [`elements_are_typed`]: `a[i]`.
//! [`conditions_are_typed`]: what enters ways. [`constructors_are_typed`]: lists, mappings and errors.
//! [`calls_are_typed`]: calls, made and started. [`actions_are_typed`]: messages and waits. Each line takes its operands as readings
//! of which the claim is known (`Knows`, `specs/Lines`), so one induction over the trees puts them together.
#![tactic(auto)]

mod laws;

pub use laws::{
    actions_are_typed, calls_are_typed, conditions_are_typed, constructors_are_typed,
    elements_are_typed, lines_are_typed, prefixes_are_typed,
};
