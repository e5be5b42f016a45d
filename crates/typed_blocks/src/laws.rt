//! The law of whole statements. This call does nothing: its clause is a law.
ghost use Rattle.typed_blocks.specs.Trees.{AllTreesAreKnown};

use check_laws::{positions_are_kept, stmt_positions_are_kept};
use kept_flows::flows_are_kept;
use type_model::Types;
use typed_bodies::statements_line_by_line;
use typed_needs::runs_go_on;
use typed_trees::runs_are_typed;

/// All needs of a statement come to one done statement more in the block at hand, those of a block to one done block more, and those of a clause to one clause more in the
/// match at hand, wherever they stand.
pub fn statements_are_known<T: Types>()
    ensures { AllTreesAreKnown T.passes }
{
    positions_are_kept::<T>();
    stmt_positions_are_kept::<T>();
    runs_go_on::<T>();
    runs_are_typed::<T>();
    statements_line_by_line::<T>();
    flows_are_kept::<T>();
}
