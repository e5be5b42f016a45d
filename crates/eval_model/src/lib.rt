//! What typed trees mean, as definitions: a machine whose frames keep what is still to be done, as parts of trees.
//!
//! The definitions, in the order in which a reader needs them, are files of `specs/`:
//!
//! - `Tasks`, what a frame keeps.
//! - `Expressions`, `Loops` and `Statements`: what is to be done for each construct, a line for each.
//! - `Trees`, the machine: what comes next in a frame, where a panic goes on, how a unit begins, and what is known of a
//!   package.
//! - `Inherent`, the atoms with which a package makes structures, functions and futures; `Allowed`, what may come of it.
//! - `Ways`, `Walk` and `TaskWalk`: which operations each construct does one behind another, and where its ways part and meet,
//!   with what a point is left open.
//! - `Narrowed`: that a narrowed variable holds a value of its narrower type wherever it is read, and that no body is done whose
//!   end isn't reached.
//! - `Cases`, worked cases; `Laws`.
//!
//! Beside them stand [`definitions_come_to_cases`] and the laws, [`trees_have_one_next`] and [`trees_settle`]; [`frames_keep_ways`] and [`each_tree_has_a_way`], that
//! ways through trees agree with what a frame does; and [`narrowed_reads_go_on`], that a narrowed variable is read without fail.
#![tactic(auto)]

mod cases;
mod laws;

pub use cases::definitions_come_to_cases;
pub use laws::{
    AnyWays, each_tree_has_a_way, frames_keep_ways, narrowed_reads_go_on, trees_have_one_next,
    trees_settle,
};
