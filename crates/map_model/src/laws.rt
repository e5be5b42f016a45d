//! Laws of the maps of lowered code. This call does nothing: its clauses are laws.
ghost use Rattle.map_model.specs.Laws.{ConstantsAreMapped, ConstantsAreWritten, ExpressionsAreMapped, ExpressionsKeepOperands, PlacesHavePoints, StatementsAreMapped, StatementsKeepOperands, UnitsAreCounted, UnitsAreMapped, WrittenUnitsHaveWays};

/// Where an expression, a statement or a unit is typed as it is written, the types that the tree names are those of the operands at each
/// place of the code that lowering adds for it: each command takes what is there and leaves what is below the types of the next place
/// and of the place to which it leads. There is a map for each place, and a way of types through the tree. Whatever the types are, what
/// waits below an expression or a statement waits there at each of its places.
pub fn written_maps()
    ensures expressions { ExpressionsAreMapped }
    ensures statements { StatementsAreMapped }
    ensures units { UnitsAreMapped }
    ensures counted { UnitsAreCounted }
    ensures points { PlacesHavePoints }
    ensures kept { ExpressionsKeepOperands }
    ensures kept_by_statements { StatementsKeepOperands }
    ensures ways { WrittenUnitsHaveWays }
    ensures worked { ConstantsAreMapped }
    ensures met { ConstantsAreWritten }
{}
