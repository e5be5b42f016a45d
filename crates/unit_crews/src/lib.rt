//! How many workers the function of each unit has: what is known where units begin tells it of each unit, and [`find_crews`] finds it out.
//!
//! - [`find_crews`]: the numbers of workers, as [`Crews`]; [`count_of`]: that of a function, by its body.
//! - [`placed_crews`]: the laws that tie these to where units are placed.
//!
//! `specs/Crews.antt` says which units have which number, and `specs/Noted.antt` what is noted of them.
#![tactic(auto)]

mod crews;
mod laws;

pub use crews::{Crews, count_of, find_crews};
pub use laws::placed_crews;
