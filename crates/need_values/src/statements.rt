//! Needs of declarations, assignments, blocks and what ends them.

use bal_base::Place;
use bal_tree::{AssignOp, Block, QualifiedName, Word};
use stmt_needs::Around;

/// A need of declarations, assignments, blocks and what ends them, as a value: a variant for each call of `MeetsExprs` and `MeetsStmts` that is about these.
pub enum StmtNeed<'t> {
    /// No variable or worker that is seen has the name.
    IsNew(&'t Word),
    /// A variable of this name has the wanted type and the value of the last part.
    Declares(&'t Word, bool, Around<'t>, Place),
    /// The name may be assigned, and its declared type is wanted.
    IsAssignable(&'t QualifiedName),
    /// The last part is assigned to it.
    Assigns(&'t QualifiedName, Place),
    /// What the name stands for is read before it is assigned; its type is wanted.
    ReadsName(&'t QualifiedName),
    /// The last part is the right operand, and the name is assigned.
    UpdatesName(&'t QualifiedName, AssignOp, Place),
    /// No way goes on from here.
    Stops,
    /// The last part is what the unit gives.
    Returns(Place),
    /// The unit gives nil.
    ReturnsNil(Place),
    /// The loop ends.
    Breaks(Place),
    /// The next turn of the loop begins.
    Continues(Place),
    /// A block begins.
    BeginsBlock,
    /// Its variables are seen no more.
    EndsBlock,
    /// The last block is a statement.
    MakesBlock(Place),
    /// The last two blocks are the ways of a branch.
    MakesIf(Place),
    /// A loop with this body begins.
    Heads(&'t Block),
    /// What is known at the head of the loop is remembered.
    OpensLoop,
    /// The last block is the body of a loop with the last part as its condition, and whether something goes on behind it.
    MakesWhile(bool, Place),
}
