//! Laws of what trees tell. This call does nothing: its clauses are laws.
ghost use Rattle.map_traces.specs.Laws.{ExpressionsAreTraced, StatementsAreTraced, UnitsAreTraced};

/// What a walk over an expression, a statement or a unit tells is what its maps say: the same operands at the same places, one map for
/// each.
pub fn traced_maps()
    ensures expressions { ExpressionsAreTraced }
    ensures statements { StatementsAreTraced }
    ensures units { UnitsAreTraced }
{}
