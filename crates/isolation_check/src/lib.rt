//! Whether a package keeps its promises of isolation ("Isolated functions").
//!
//! - [`check_isolated`]: whether each body that is declared isolated, and each that such a one reaches by calls by name, keeps its
//!   promise.
//!
//! `specs/Parts.antt` says what of a body is looked at, `specs/Isolated.antt` when a package is isolated, and `specs/Walk.antt` which fault
//! comes first. A line that finds parts of trees stands in `parts` or `bodies`, one that judges a part in `judging`, and the walk along
//! calls in `walk`.
#![tactic(auto)]

mod bodies;
mod checking;
mod gathering;
mod judging;
mod parts;
mod walk;

pub use checking::check_isolated;
