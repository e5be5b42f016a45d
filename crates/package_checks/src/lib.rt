//! What it means that a package is checked, as a definition.
//!
//! `specs/Checked.antt` says with what a check begins, that all needs of the package are met one behind another, what holds between any
//! two of them, and what the typed package is then. `specs/Laws.antt` states what follows of single needs.
//!
//! - [`packages_are_checked_need_by_need`]: a package is refused exactly with the fault of the first need that is refused.
#![tactic(auto)]

mod laws;

pub use laws::packages_are_checked_need_by_need;
