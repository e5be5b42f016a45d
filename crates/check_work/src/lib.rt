//! What the checkers hold while they meet the needs of constructs, and the calls of which bodies of needs are put together.
//!
//! `check_words` says what it means that a need is met, as a check of a state. Here is what the program holds for that state:
//! [`Work`], which is changed in place. `specs/Views.antt` says which state it means (`state_of`), with why it stopped (`going`),
//! and what holds between any two needs (`Holds`).
//!
//! - [`Checker`]: the types, what names stand for, and the work. A need is a call on it.
//! - [`has_stopped`], [`note`], [`note_made`]: work that goes on until it stops. A need asks first whether it has, and notes at
//!   its end what came of it.
//! - [`Site`], [`Unit`], [`Here`], [`Ways`], [`Choice`], [`Match`], [`Constructor`], [`Call`], [`Callee`], [`Block`], [`Initials`],
//!   [`Done`]: the parts of the work.
//! - [`last`], [`taken`], [`at_hand`], [`last_taken`], [`drop_last`]: what stands last in a list.
//! - [`take_one`], [`take_two`], [`take_three`], [`take_parts`], [`gather`]: parts that become one (`specs/Parts.antt`).
//! - [`take_part`], [`take_want`], [`close_block`], [`keep`], [`declare`]: small steps, each as it is meant.
//! - [`shared`], [`shared_if`], [`copy_flow`], [`find_variable`], [`narrow_by_name`]: types by other handles, and what is known of variables.
//! - [`result_fits`], [`take_operator`] (`specs/Updates.antt`): assignments with an operator.
//! - [`new_name`] (`specs/Seen.antt`): whether a name may be declared.
//! - [`forget_choice`] (`specs/Choices.antt`), [`add_stmt`], [`scope_at`] (`specs/Blocks.antt`): what is open.
//!
//! Types are shared and never copied. Where a way is left that is entered again what is known of variables is copied, which costs
//! by the variables that are seen there; all other calls cost by what they change.
#![tactic(auto)]

mod blocks;
mod choices;
mod flows;
mod narrowing;
mod parts;
mod seen;
mod steps;
mod stopping;
mod units;
mod updates;
mod work;

pub use blocks::{add_stmt, scope_at};
pub use choices::forget_choice;
pub use flows::{copy_flow, find_variable, shared, shared_if};
pub use narrowing::narrow_by_name;
pub use parts::{
    drop_last, gather, last, last_taken, take_one, take_parts, take_three, take_two, taken,
};
pub use seen::new_name;
pub use steps::{close_block, declare, keep, take_part, take_want};
pub use stopping::{has_stopped, note, note_made};
pub use units::at_hand;
pub use updates::{result_fits, take_operator};
pub use work::{
    Block, Call, Callee, Checker, Choice, Constructor, Done, Here, Initials, Match, Site, Unit,
    Ways, Work,
};
