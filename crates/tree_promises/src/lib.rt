//! What typed trees promise to all that follows: that they are well typed.
//!
//! Two walks through the body of each unit say it, each by points that the walk passes. By one of them they are the types of the operands
//! that wait there, and by the other what is known of the unit's slots. Both are ways through trees, of which `eval_model` says which
//! operations each construct does. The definitions, in the order in which a reader needs them, are files of `specs/`:
//!
//! - `Known`: what is known of slots at a point, and what follows from what.
//! - `Flows`: what operations make of it, tests and stores above all.
//! - `Types`: the types of operands, by the rows of `operations`.
//! - `Placed`: the units of a package, with what is known where each begins and where its operations stand.
//! - `WellTyped`: one unit, and a package.
//! - `Layers`, the ways through a tree by its layer; `Made`, `MadeStmts` and `MadeLoops`, what the parts of an
//!   expression and of a statement have to be so that it is typed; `MadeFlows`, `MadeStmtFlows`, `MadeMatchFlows` and
//!   `MadeLoopFlows`, what they leave of what is known.
//! - `KnownOf`, what a checker knows, as what is known of slots.
//! - `Cases`, worked cases; `Laws`.
//!
//! Beside them stand [`definitions_come_to_cases`] and the laws: [`promises_are_ways`], [`ways_go_by_layers`],
//! [`made_expressions_are_typed`], [`made_statements_are_typed`], [`made_expressions_keep_flows`],
//! [`made_statements_keep_flows`] and [`checked_flows_agree`].
#![tactic(auto)]

mod cases;
mod laws;

pub use cases::definitions_come_to_cases;
pub use laws::{
    checked_flows_agree, made_expressions_are_typed, made_expressions_keep_flows,
    made_statements_are_typed, made_statements_keep_flows, promises_are_ways, ways_go_by_layers,
};
