//! Needs of operators, casts, `check` and `trap`.

use bal_base::Place;
use expr_needs::Kind;
use typed_tree::Operator;

/// A need of operators, casts, `check` and `trap`, as a value: a variant for each call of `MeetsExprs` and `MeetsStmts` that is about these.
pub enum OperatorNeed {
    /// The last part is of the kind.
    IsOf(Kind, Place),
    /// So many parts are the operands of the operator, which gives the kind.
    Forms(Operator, usize, Kind, Place),
    /// The last part is what the operator works on.
    IsSort(Place),
    /// The last two parts are the operands of `+`.
    Adds(Place),
    /// The last two parts are the operands of `<` or its kin.
    Compares(Operator, Place),
    /// The last part is cast to the wanted type.
    Casts(Place),
    /// The last part is the operand of `check`.
    Checks(Place),
    /// The last part is the operand of `checkpanic`.
    ChecksPanicking(Place),
    /// The last part is the operand of `trap`.
    Traps(Place),
}
