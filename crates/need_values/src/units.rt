//! Needs of functions, workers, initial values and modules.

use bal_base::Place;
use bal_tree::{Body, ConstDef, Expr, FunctionDef, VariableDef, Word, Worker};

/// A need of functions, workers, initial values and modules, as a value: a variant for each call of `MeetsExprs` and `MeetsStmts` that is about these.
pub enum UnitNeed<'t> {
    /// An anonymous function begins.
    BeginsAnonymous,
    /// It has a parameter of the wanted type.
    HasParameter(&'t Word),
    /// It takes the rest in lists of the wanted type.
    HasRest(&'t Word),
    /// Its value, which is this expression, has to be of the wanted type.
    BeginsValue(&'t Expr),
    /// The last part is its value.
    MakesAnonymous(bool, Place),
    /// What follows stands in this file of this module.
    EntersFile(usize, usize),
    /// A function begins.
    BeginsFunction(&'t FunctionDef),
    /// The next parameter of the function with this body has the name.
    NamesParameter(&'t Word, &'t Body),
    /// It ends at this brace.
    EndsFunction(&'t FunctionDef, Place),
    /// It gives the last part.
    EndsValueFunction(&'t FunctionDef),
    /// A worker with this number begins.
    BeginsWorker(&'t Worker, usize),
    /// It ends.
    EndsWorker(&'t Worker),
    /// The initial value of a variable of the module begins, and whether the module is initialised.
    BeginsInitial(&'t VariableDef, bool),
    /// The last part is that value.
    EndsInitial(&'t VariableDef, bool),
    /// The module ends.
    EndsModule(usize),
    /// The value of the constant is of its type.
    IsConstant(&'t ConstDef),
}
