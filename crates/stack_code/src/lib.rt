//! Stack code: the instructions that typed programs are lowered to, and the machine that they mean.
//!
//! - [`Code`], [`Unit`], [`Spawn`] and [`StackMap`]: a program in instructions, and what is known at each.
//! - [`Instr`]: the instructions.
//! - [`code_has_one_next_state`], [`calls_stand_at_numbers`], [`well_typed_code_breaks_nowhere`]: the laws.
//! - [`a_worker_stands`] and [`wrong_codes_are_refused`]: worked codes.
//!
//! The definitions, in the order in which a reader needs them, are files of `specs/`:
//!
//! - `Commands`: what each instruction means, an operation or where to go on; `CodeMachine`: the machine of a code, over
//!   the machines of `machine_model`.
//! - `Places`: what is known at a place; `Flow`: the typing of one place; `Messages`: those between workers; `Tables`: the
//!   fields of a code, and what a place names; `WellTyped`: all of these, place by place, and the first place that breaks a
//!   rule.
//! - `Values`, `Frames`, `Activations` and `Good`: what holds of each state that well-typed code reaches, and of what comes
//!   later.
//! - `Worked`: worked codes.
//! - `Laws`.
#![tactic(auto)]

mod code;
mod instr;
mod laws;

pub use code::{Code, Constants, Instrs, Spawn, Spawns, StackMap, StackMaps, Unit, Units};
pub use instr::Instr;
pub use laws::{
    a_worker_stands, calls_stand_at_numbers, code_has_one_next_state,
    well_typed_code_breaks_nowhere, wrong_codes_are_refused,
};
