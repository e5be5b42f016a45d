//! Needs of loops over lists and ranges, and matches.

use bal_base::Place;
use bal_tree::{Block, Expr, Pattern, RangeOp, Word};

/// A need of loops over lists and ranges, and matches, as a value: a variant for each call of `MeetsExprs` and `MeetsStmts` that is about these.
pub enum LoopNeed<'t> {
    /// A member of the last part is below what is wanted.
    IsItemOfLoop(Place),
    /// The type of such a member, widened, is wanted.
    WidensItem(Place),
    /// An int is below what is wanted.
    IsCounter(Place),
    /// An int is wanted.
    WantsCounter,
    /// The loop with this body has a variable of the wanted type.
    HasItem(&'t Word, &'t Block),
    /// The last block is the body of a loop over the last part.
    MakesForeach(Place),
    /// The same over the ints between the last two parts.
    MakesRange(RangeOp, Place),
    /// A match on the last part, which is this expression, begins.
    BeginsMatch(&'t Expr),
    /// The next clause has the pattern.
    HasPattern(&'t Pattern),
    /// The clause begins, and whether it takes all that is left.
    BeginsClause(bool),
    /// It ends.
    EndsClause(Place),
    /// The match ends, and whether a clause took all.
    MakesMatch(bool, Place),
}
