//! Needs of names, literals, conditions, and what is wanted.

use bal_base::{FaultCode, Place};
use bal_tree::{Expr, Literal, QualifiedName, TypeTree};

/// A need of names, literals, conditions, and what is wanted, as a value: a variant for each call of `MeetsExprs` and `MeetsStmts` that is about these.
pub enum ValueNeed<'t> {
    /// It is refused.
    Fails(FaultCode, Place),
    /// The last part is below the type that is wanted last, if there is one.
    IsWanted(Place),
    /// The type of the descriptor is wanted.
    Describes(&'t TypeTree),
    /// What is wanted last, or an error, is wanted beside it.
    WantsErrorToo,
    /// What is wanted last is wanted no more.
    DropsWant,
    /// A literal.
    GivesLiteral(&'t Literal),
    /// What the name stands for.
    GivesNamed(&'t QualifiedName),
    /// The operator works on ints, where the last part is below int, and else on strings.
    Decides(Place),
    /// The last part is a condition, one way of which is entered: where it holds, or where it doesn't.
    Splits(bool),
    /// The other way is entered.
    Switches,
    /// The last part is the operand of `!`.
    Turns(Place),
    /// The last two parts are the operands of `&&`.
    Conjoins(Place),
    /// The last two parts are the operands of `||`.
    Disjoins(Place),
    /// The last three parts are a conditional expression.
    Chooses(Place),
    /// The last two parts are the operands of `?:`.
    FillsNil(Place),
    /// Whether the last part, which is this expression, is of the wanted type.
    Tests(&'t Expr, Place),
    /// The last part stands in parentheses.
    Encloses(Place),
    /// The type of the last part, widened, is wanted.
    Widens(Place),
    /// The result of the unit is wanted.
    WantsResult,
}
