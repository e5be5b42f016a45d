//! The members that a mapping may have.

use type_model::{FieldDef, Ty};

/// The fields of a mapping atom, and the type of its other members, where it may have some.
#[derive(Clone, Copy)]
pub struct Members<'c> {
    /// The fields.
    pub fields: &'c [FieldDef],
    /// The type of other members.
    pub rest: &'c Option<Ty>,
}
