//! Nothing else can be the case: what checkers come to is the only thing that the tables of checking allow.
//!
//! A type may be written in more than one way, and what a need means says which shapes its types have. So two runs of the same needs may have
//! other types, but only such as are the same sets of shapes over their atoms: their states are twins. What they refuse is one fault at one
//! place, but for a limit of questions about types that either may meet.
//!
//! The definitions, in the order in which a reader needs them, are files of `specs/`:
//!
//! - `TwinTypes`: types and atoms of two runs that mean the same.
//! - `Pieces`: typed trees written out, and when two are written alike.
//! - `TwinStates`: states that are the same, but for types that correspond.
//! - `Answers`: what two runs of a need, and over a package, come to.
//! - `Laws`.
//!
//! Beside them stand the laws, a call for each kind of needs.
#![tactic(auto)]

mod laws;

pub use laws::{
    actions_agree, all_lines_agree, branches_agree, calls_agree, constructors_agree, lines_agree,
    made_atoms_agree, matches_agree, members_agree, names_agree, packages_agree, statements_agree,
    types_stay_twins, units_agree, updates_agree, values_agree,
};
