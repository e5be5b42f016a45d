//! Laws of lines of the table of statements. These calls do nothing: their clauses are laws.
ghost use Rattle.typed_bodies.specs.Lines.{AllLinesAreTyped};

use calm_needs::needs_are_calm;
use tree_promises::made_statements_are_typed;
use type_model::Types;

/// Where what is read of values and of blocks comes to typed parts and blocks, what is read of the whole comes to one typed statement more in the block at hand, of a clause to
/// one typed clause more in the match at hand; and statements one behind another come to a typed block.
pub fn statements_line_by_line<T: Types>()
    ensures { AllLinesAreTyped T.passes }
{
    made_statements_are_typed();
    needs_are_calm::<T>();
}
