//! The laws. These calls do nothing: their clauses are laws.
ghost use Rattle.kept_done.specs.Done.{DoneIsKept, TreesEndNone};

use type_model::Types;

/// No need of an expression, of an action, of a statement or of a block ends a function, a worker, a variable of a module or a module.
pub fn trees_end_none()
    ensures { TreesEndNone }
{}

/// Where needs are met of which none ends anything, the same functions, workers, variables and initialisers are done as before, and numbers of units may be taken.
pub fn done_is_kept<T: Types>()
    ensures { DoneIsKept T.passes }
{}
