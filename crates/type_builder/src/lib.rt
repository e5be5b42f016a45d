//! What the names of a package stand for.
//!
//! - [`build`]: that, with the atoms that its definitions need; or the first fault.
//! - [`check_room`]: whether there is room for these atoms. [`check_main`]: whether the function `main` gives what it has to.
//! - `placed`: the definitions in text order; `noting`: what names stand for, definition by definition.
//! - `keeping`: the first pass, types by themselves; `defining`: the second one, all atoms, variables and functions; `meanings`: single
//!   definitions.
//! - `main_in_place`: the question about what `main` gives among the faults of names.
//! - `earlier`: how many functions and variables come before a definition.
//! - `flat`: types whose unions are flat and have each member once, as types are kept.
//! - `atom_places`: where the atoms that descriptors need are asked for.
//!
//! `specs/MainInPlace.antt` says what `build` comes to, `specs/Building.antt` what names stand for, `specs/Meanings.antt` what
//! definitions mean, `specs/AtomPlaces.antt` where they need atoms, `specs/Flat.antt` how types are kept small,
//! `specs/MainFunction.antt` what `main` has to give, and `specs/Passes.antt` and `specs/Keeping.antt` what the passes
//! do.
#![tactic(auto)]

mod atom_places;
mod building;
mod defining;
mod earlier;
mod flat;
mod keeping;
mod main_function;
mod main_in_place;
mod meanings;
mod noting;
mod placed;
mod room;

pub use building::build;
pub use main_function::check_main;
pub use room::check_room;
