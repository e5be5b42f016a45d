//! Packages that were accepted, run against the outside.
//!
//! - [`run_accepted`]: the run of a package: the fillers of its lists are found by questions about types, the input is read where the
//!   package asks for some, and then it runs as code, as its trees do.
//! - [`Bounds`]: what a run is given beside the outside; [`RunFault`]: why it has no outcome.
//!
//! `specs/Ended.antt` says what became of a run and of the outside, answer by answer, and `specs/Outside.antt` what of the outside is
//! spoken of.
#![tactic(auto)]

mod accepted;

pub use accepted::{Bounds, RunFault, run_accepted};
