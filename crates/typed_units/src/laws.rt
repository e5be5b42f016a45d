//! The laws. These calls do nothing: their clauses are laws.
ghost use Rattle.typed_units.specs.Bodies.{AllBodiesMakeTyped};
ghost use Rattle.typed_units.specs.Functions.{AllBodiesAreTyped};
ghost use Rattle.typed_units.specs.Workers.{AllWorkersAreTyped};

use check_laws::stmt_positions_are_kept;
use tree_promises::made_statements_are_typed;
use type_model::Types;
use typed_blocks::statements_are_known;
use typed_needs::runs_go_on;

/// Where the statements of a function or of a worker are typed in the place of its unit, or its value is, and nil is a result where its end is reached, there is a way through its
/// body by the types of operands; and so it is for initialisers, whose values are below the types of their variables.
pub fn bodies_make_typed_units()
    ensures { AllBodiesMakeTyped }
{}

/// All needs of a worker come to a worker whose unit is typed, and so are the units of all functions in it: its body is a block in a unit of its own, whose first slots are those of
/// what it captures; and where its end is reached nil is its result. What its function's workers give is what the place has, and each action in it is of another worker.
pub fn workers_are_typed<T: Types>()
    ensures { AllWorkersAreTyped T.passes }
{
    made_statements_are_typed();
    statements_are_known::<T>();
    bodies_make_typed_units();
}

/// All needs of a function's body come to a function whose unit is typed, and so are the units of the functions in its value, or in its initial part and in what stands behind its
/// workers, which leave the unit at hand as it is.
pub fn function_bodies_are_typed<T: Types>()
    ensures { AllBodiesAreTyped T.passes }
{
    made_statements_are_typed();
    statements_are_known::<T>();
    bodies_make_typed_units();
    stmt_positions_are_kept::<T>();
    runs_go_on::<T>();
}
