//! What a removal comes to.

use plain_run::Members;
use value_model::{PanicName, Value};

/// What a removal comes to, before it is done.
#[derive(Drop)]
pub enum Removal {
    /// A panic.
    Panics(PanicName),
    /// These members are left, and this one is given.
    Leaves(Members, Value),
    /// It is not told whether what would be left is allowed.
    Undecided,
}
