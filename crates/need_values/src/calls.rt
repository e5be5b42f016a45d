//! Needs of calls.

use bal_base::Place;
use bal_tree::{QualifiedName, Word};
use typed_tree::PerformForm;

/// A need of calls, as a value: a variant for each call of `MeetsExprs` and `MeetsStmts` that is about these.
pub enum CallNeed<'t> {
    /// What the name stands for is called, or where so marked started, with so many arguments.
    CallsNamed(bool, &'t QualifiedName, usize, Place),
    /// The last part is called.
    CallsValue,
    /// A method of the last part is called with so many arguments.
    CallsMethod(&'t Word, usize, Place),
    /// The type of the next argument is wanted.
    ExpectsArgument(Place),
    /// The last part is the next argument.
    IsArgument(Place),
    /// The call is made.
    MakesCall(Place),
    /// The call at the first place is started.
    Starts(Place, Place),
    /// The last part is nil.
    IsIgnorable(Place),
    /// So many parts are the operands of a statement of this form.
    Performs(PerformForm, usize, Place),
}
