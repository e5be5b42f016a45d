//! Laws of the code that is added for typed trees. This call does nothing: its clauses are laws.
ghost use Rattle.typed_making.specs.Laws.{ExpressionsAreTyped, StatementsAreTyped, UnitsAreTyped};

/// What lowering adds for a well-typed expression, statement or unit is typed: there are types of operands for each of its places, so that each
/// command takes what is there and leaves what is below the types of the next place and of the place to which it leads. Matches have no
/// pattern behind a wildcard in a clause.
pub fn typed_pieces()
    ensures expressions { ExpressionsAreTyped }
    ensures statements { StatementsAreTyped }
    ensures units { UnitsAreTyped }
{}
