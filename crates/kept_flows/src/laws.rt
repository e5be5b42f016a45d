//! The laws. This call does nothing: its clauses are laws.
ghost use Rattle.kept_flows.specs.Flows.{AllBlocksSeeTheSame, AllValuesKeepFlows};

use calm_needs::needs_are_calm;
use check_laws::stmt_positions_are_kept;
use type_model::Types;
use typed_needs::runs_go_on;

/// Where all needs of an expression or of an action are met, the same is known of the variables at hand as before: ways that its conditions enter are left again, and the unit of a
/// function in it is gone. Behind a block those variables are seen that were seen before it, in the same order: what was declared in it is seen no more, and ways that meet are of the
/// same variables.
pub fn flows_are_kept<T: Types>()
    ensures values { AllValuesKeepFlows T.passes }
    ensures blocks { AllBlocksSeeTheSame T.passes }
{
    needs_are_calm::<T>();
    stmt_positions_are_kept::<T>();
    runs_go_on::<T>();
}
