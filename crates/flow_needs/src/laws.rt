//! Laws of what is known of variables. These calls do nothing: their clauses are laws.
ghost use Rattle.flow_needs.specs.Changing.{AllChangesAreKnown};
ghost use Rattle.flow_needs.specs.Knowing.{AllVariablesAreKnown};
ghost use Rattle.flow_needs.specs.Meeting.{AllWaysAreNarrower};
ghost use Rattle.flow_needs.specs.Runs.{AllRunsKeepFlow};

use calm_needs::{needs_are_calm, ways_stay_on};
use check_laws::positions_are_kept;
use tree_promises::made_expressions_keep_flows;
use type_model::Types;
use typed_needs::runs_go_on;

/// Where variables stand in slots of their own, what the checkers know of them is known of their slots: the variable that a name stands for is known, where it is narrowed
/// in the type that it has; to narrow it is to know its slot in that type; and of slots that come later nothing is known.
pub fn variables_are_known()
    ensures { AllVariablesAreKnown }
{}

/// Of ways on which more is known of the same variables: other handles tell nothing new, where two of them meet no more is known than on each and no less than before they
/// parted, and what a test leaves of a variable is what it leaves over all atoms that there are at the end.
pub fn narrower_ways_meet()
    ensures { AllWaysAreNarrower }
{}

/// What statements change is known too: a variable that is declared or assigned is a slot that holds a value of its declared type, at the head of a loop no more is known than
/// before it, and behind a block nothing is known of what was declared in it.
pub fn changes_are_known()
    ensures { AllChangesAreKnown }
{}

/// All needs of an expression, of a part of one, or of an action, come to one part more that keeps what the checkers know of variables: from a state that is ready, in which each variable
/// stands in a slot of its own, to an end that is the place's. So a variable is read as what it is narrowed to only where it is known to hold such a value, and behind a condition
/// that is known which the checkers know where it holds, and where it doesn't. And each anonymous function in it flows in a unit of its own, from what is declared of its
/// parameters and of what it captures.
pub fn runs_keep_flow<T: Types>()
    ensures { AllRunsKeepFlow T.passes }
{
    positions_are_kept::<T>();
    runs_go_on::<T>();
    needs_are_calm::<T>();
    ways_stay_on::<T>();
    made_expressions_keep_flows();
}
