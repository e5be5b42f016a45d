//! What of a code is decided by its numbers alone, without a question about types.
//!
//! - [`types_hold`]: whether its types and definitions name atoms that are there, and fields have names of their own.
//! - [`constants_hold`]: whether its constants are values.
//! - [`units_follow`]: whether its units have their places one behind another.
//! - [`trap_rows`]: in the reach of which traps the places of a unit are.
//!
//! What holds of a code is said in `stack_code`; `specs/Traps.antt` says what the rows of the table of traps tell.
#![tactic(auto)]

mod constants;
mod places;
mod traps;
mod types;

pub use constants::constants_hold;
pub use places::units_follow;
pub use traps::trap_rows;
pub use types::types_hold;
