//! Code put together of what was made: instructions with what they name, and units.
//!
//! - [`assemble`]: the code of a draft, whose units stand where a [`LaidUnit`] says.
//!
//! `specs/Standing.antt` says which instruction stands for a command in each code that has what the instruction names,
//! `specs/Unit.antt` what a unit of the code has of one of the package, and `specs/Copies.antt` what is the same but for where types lie
//! in memory.
#![tactic(auto)]

mod assembly;
mod atoms;
mod instrs;
mod numbers;
mod plain;
mod tables;
mod units;

pub use assembly::assemble;
pub use units::LaidUnit;
