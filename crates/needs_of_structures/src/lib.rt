//! The needs of constructors of lists, mappings and errors, met: a call for each.
//!
//! What it means that a need is met is said in `check_words`; what the calls change is the work of a `Checker` of `check_work`. Each
//! does nothing where the work has stopped, and else notes what came of it. Where the parts that it needs aren't there, which no table
//! of needs brings about, it is as if memory were wanted.
//!
//! - [`begins_keys`], [`gives_key`], [`takes_key`], [`computes_key`]: keys of mappings, and names of details of errors.
//! - [`expects_item`]: what is expected of members.
//! - [`is_item`], [`is_detail`]: members that were found.
//! - [`lacks_cause`], [`makes_list`], [`makes_mapping`], [`makes_error`]: what they make.
//! - [`new_constructor`], [`want_copy`]; [`Found`], [`last_member`], [`below_want`], [`stood`], [`take_member`]: what further needs of
//!   constructors are put together of.
#![tactic(auto)]

mod keys;
mod making;
mod members;
mod parts;
mod wants;

pub use keys::{begins_keys, computes_key, gives_key, new_constructor, takes_key};
pub use making::{lacks_cause, makes_error, makes_list, makes_mapping};
pub use members::{Found, below_want, is_detail, is_item, last_member, stood, take_member};
pub use wants::{expects_item, want_copy};
