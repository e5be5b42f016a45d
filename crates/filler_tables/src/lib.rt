//! Tables of fillers: which value fills a gap of a list, for each atom of types.
//!
//! - [`fillers_of`]: the fillers of the places of the lists of all atoms, by questions about types.
//!
//! `specs/Tables.antt` says what a table of fillers has, and `specs/Asked.antt` which questions about types it leads to, with
//! `specs/Values.antt` for simple values. What a filler is, stands in `value_model` (`FillsExactly`); that rounds over all
//! atoms find them, in `list_fillers`.
#![tactic(auto)]

mod asking;
mod candidates;
mod chosen;
mod places;
mod rounds;
mod simple;
mod tables;
mod values;

pub use tables::fillers_of;
