//! Atoms of what members make: closed records, maps and lists of just these members, and errors.
//!
//! What the calls say they say of checks of `check_words`, in every state of a checker over the same atoms (`specs/Over` of
//! `check_kinds`). `specs/Defs.antt` says which definitions members have.
//!
//! - [`any_of`]: the union of any number of types.
//! - [`record_def`]: the definition of a closed record; [`add_one`]: an atom more.
//! - [`list_atom`], [`mapping_atom`]: the atom that was chosen, or else that of the very members; [`error_atoms`]: those of an error.
#![tactic(auto)]

mod atoms;
mod unions;

pub use atoms::{add_one, error_atoms, list_atom, mapping_atom, record_def};
pub use unions::any_of;
