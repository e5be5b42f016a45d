//! Needs of members, read and stored.

use bal_base::Place;
use bal_tree::{AssignOp, Word};

/// A need of members, read and stored, as a value: a variant for each call of `MeetsExprs` and `MeetsStmts` that is about these.
pub enum MemberNeed<'t> {
    /// A member of the last part is taken, of a string only where so marked.
    IsAccessed(bool, Place),
    /// The last part is its index or key.
    IsIndex(Place),
    /// The member is read.
    ReadsElement(Place),
    /// The field of the last part is read.
    ReadsField(&'t Word, Place),
    /// The field of the last part is read, if it is there.
    ReadsOptional(&'t Word, Place),
    /// The field is the key with which a member of a mapping is taken.
    HasField(&'t Word),
    /// A member is stored: its type is wanted.
    ExpectsStored(Place),
    /// The last part is stored.
    Stores(Place),
    /// The same of a member.
    ReadsStored(Place),
    /// The same of a member by its field.
    ReadsStoredField(&'t Word, Place),
    /// What was read is the left operand of the assignment.
    IsOperand(AssignOp, Place),
    /// The same of a member.
    UpdatesElement(AssignOp, Place),
    /// The same of a member by its field.
    UpdatesField(&'t Word, AssignOp, Place),
}
