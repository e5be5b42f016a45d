//! Laws of positions. These calls do nothing: their clauses are laws.
ghost use Rattle.check_laws.specs.FunctionLaws.{FunctionsEndWhole};
ghost use Rattle.check_laws.specs.Laws.{EffectsAreKept, KeptPositions};
ghost use Rattle.check_laws.specs.StmtLaws.{KeptStmtPositions};

use type_model::Types;

/// Each need that is met, of expressions, actions, statements and workers, takes as many parts, wanted types and other open things from
/// the top as its effect says, and leaves as many there; and what is below stays as it was.
pub fn effects_are_kept<T: Types>()
    ensures { EffectsAreKept T.passes }
{}

/// Where the needs of an expression, of a part of one or of an action are met, in the order of its line, one typed expression more
/// stands at the end of those that were found, and what is wanted and what else is open is what it was; and each need of it, where all
/// before it are met, finds on what was there as many parts, wanted types and other open things as it takes. So it is in each package,
/// whatever is expected, where there is a unit at hand, and a type is wanted where that counts.
pub fn positions_are_kept<T: Types>()
    ensures { KeptPositions T.passes }
{}

/// Where the needs of a statement are met, one typed statement more stands at the end of the block at hand, and where those of a block
/// are met, one block more waits for its construct; behind a worker nothing more is open; all parts that were found are those that were
/// there, and all else that is open is what it was; and each need finds what it takes.
pub fn stmt_positions_are_kept<T: Types>()
    ensures { KeptStmtPositions T.passes }
{}

/// Where the needs of a function are met, all that was found, is wanted or is open is what it was before it, its own unit and blocks
/// among them, and so is the file at hand.
pub fn functions_end_whole<T: Types>()
    ensures { FunctionsEndWhole T.passes }
{}
