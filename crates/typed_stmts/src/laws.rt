//! Laws of needs of statements that are met, piece by piece. These calls do nothing: their clauses are laws.
ghost use Rattle.typed_stmts.specs.Assigned.{AllAssignmentsAreTyped};
ghost use Rattle.typed_stmts.specs.Branched.{AllBranchesAreTyped};
ghost use Rattle.typed_stmts.specs.Elements.{ElementUpdatesAreTyped};
ghost use Rattle.typed_stmts.specs.Ended.{AllEndsAreTyped};
ghost use Rattle.typed_stmts.specs.Flowing.{TheseStatementsLeave};
ghost use Rattle.typed_stmts.specs.Kept.{StoredStays};
ghost use Rattle.typed_stmts.specs.Stored.{AllStoresAreTyped};
ghost use Rattle.typed_stmts.specs.Updated.{NameUpdatesAreTyped};

use tree_promises::{made_statements_are_typed, made_statements_keep_flows, promises_are_ways};
use type_model::Types;

/// Where a declaration or an assignment to a name is met, and its value is typed and below what is declared, there is one typed statement more in the block at hand;
/// and of what is assigned the declared type is wanted.
pub fn needs_make_typed_assignments<T: Types>()
    ensures { AllAssignmentsAreTyped T.passes }
{
    made_statements_are_typed();
}

/// Where a need is met that ends a way or evaluates something, and its part is typed, there is one typed statement more in the block at hand: `break` and
/// `continue` only in a loop.
pub fn needs_make_typed_ends<T: Types>()
    ensures { AllEndsAreTyped T.passes }
{
    made_statements_are_typed();
}

/// Where a block, a branch, a loop or a match is met, and its parts and the statements of its blocks are typed, there is one typed statement more in the block at hand, in
/// place of its blocks.
pub fn needs_make_typed_branches<T: Types>()
    ensures { AllBranchesAreTyped T.passes }
{
    made_statements_are_typed();
}

/// Where what is stored to a member is wanted, all that is of the type may stand there; and where the store is met, and its value may stand there, there is one typed
/// statement more in the block at hand. The name of a field is a typed part.
pub fn needs_make_typed_stores<T: Types>()
    ensures { AllStoresAreTyped T.passes }
{
    made_statements_are_typed();
}

/// Where an assignment with an operator to a name is met there is one typed statement more in the block at hand: what was read and the value are of the sort that the
/// operator works on, and what it gives is below what is declared.
pub fn needs_make_typed_updates<T: Types>()
    ensures { NameUpdatesAreTyped T.passes }
{
    made_statements_are_typed();
}

/// Where an assignment with an operator to a member is met there is one typed statement more in the block at hand: what is read there and the value are of the sort that the
/// operator works on, and what it gives may stand there. What is stored to is a list or a mapping, and of what is read a type that has all of it is wanted.
pub fn needs_make_typed_element_updates<T: Types>()
    ensures { ElementUpdatesAreTyped T.passes }
{
    made_statements_are_typed();
}

/// What a statement that is made leaves of the flow, by what its parts leave: behind what evaluates or stores to a member all is known that was, a variable's slot holds a
/// value of its declared type, ways of branches meet, at the head of a loop is known what each turn leaves, and behind what ends a way whatever may be known.
pub fn needs_keep_flows<T: Types>()
    ensures { TheseStatementsLeave T.passes }
{
    made_statements_are_typed();
    made_statements_keep_flows();
    promises_are_ways();
}

/// Where the variables that are seen stand in slots of their declared types, they do so behind a need of a statement that enters and leaves no way, and behind the one that
/// declares another, where that one's slot is the place's.
pub fn needs_keep_stored<T: Types>()
    ensures { StoredStays T.passes }
{}
