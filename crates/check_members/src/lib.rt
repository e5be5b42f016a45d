//! Members of structures, as types alone have them.
//!
//! What reads and stores of members need is said in `check_words` (`specs/Members`). The calls here are the parts that look at types
//! alone, in every state of a checker over the same atoms.
//!
//! - [`container_kind`], [`index_kind`], [`read_of`]: what members are taken of, and by.
//! - [`names_members`]: which members an index or a key of a type names.
//! - [`member_at`], [`some_member_at`], [`field_type`]: their type. [`item_type`], [`key_type`]: that in the definition of an
//!   atom.
//! - [`stored_type`]: the type of what is stored.
#![tactic(auto)]

mod accesses;
mod naming;
mod only;
mod places;
mod stored;
mod taken;

pub use accesses::{container_kind, index_kind, read_of};
pub use naming::names_members;
pub use places::{item_type, key_type};
pub use stored::stored_type;
pub use taken::{field_type, member_at, some_member_at};
