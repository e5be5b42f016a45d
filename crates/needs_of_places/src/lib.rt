//! The needs of the operation at one place of code, found as questions, without asking them.
//!
//! - [`Site`]: where an instruction stands; [`Taken`]: what it takes and gives; [`Lent`]: what its questions name besides.
//! - [`own_type`], [`field_key`], [`operand_pairs`]: what of it is to be lent for one instruction.
//! - [`row`]: what the operation of an instruction needs by its typing row.
//!
//! `specs/Sites.antt` says what is known where an instruction stands and what it needs there, `specs/Lending.antt` what is lent.
#![tactic(auto)]

mod lending;
mod library;
mod made;
mod named;
mod rows;
mod simple;
mod site;
mod waits;

pub use lending::{field_key, operand_pairs, own_type};
pub use rows::row;
pub use site::{Lent, Site, Taken};
