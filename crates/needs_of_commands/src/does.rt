//! What an operation needs at its place.
ghost use Rattle.std.specs.Option.{option_copied};
ghost use Rattle.std.specs.Prelude.{◌≡◌, ◌+◌, Some, not};
ghost use Rattle.operations.specs.declared.operation.Operation.{Operation as Done};
ghost use Rattle.stack_code.specs.Commands.{Do, command_of};
ghost use Rattle.stack_code.specs.Places.{stack_at as types_at};
ghost use Rattle.code_needs.specs.Combining.{only_if};
ghost use Rattle.code_needs.specs.RowNeeds.{below_each as below_needs};
ghost use Rattle.needs_of_places.specs.Lending.{AreLent};
ghost use Rattle.needs_of_rows.specs.Finding.{Finds};
ghost use Rattle.needs_of_commands.specs.inner.Doing.{AreBefore, AreBehind, doing};
ghost use Rattle.needs_of_commands.specs.Loans.{AreOf};

use crate::counts::{ends, gives, operand_count};
use crate::stacks::{front, last, split_behind, stack_at};
use needs_of_places::{Lent, Site, Taken, row};
use needs_of_rows::{Found, below_each};
use stack_code::{Code, Instr};
use type_model::SemType;

/// The operands of an instruction, and what stays below them.
fn operands_at<'c>(code: &'c Code, place: u32, instr: &Instr) -> (&'c [SemType], &'c [SemType])
    ensures { (o : Done) → command_of code.now instr.now ≡ Some (Do o) → AreBefore o (types_at code.now place) result.0.now result.1.now }
{
    let types = stack_at(code, place as usize);
    let count = operand_count(code, instr);
    split_behind(types, count)
}

/// What stands behind an instruction: its result, and what stayed.
fn result_at<'c>(code: &'c Code, place: u32, instr: &Instr) -> (&'c [SemType], Option<&'c SemType>)
    ensures { (o : Done) → command_of code.now instr.now ≡ Some (Do o) → AreBehind o (types_at code.now (place + 1)) result.0.now (option_copied result.1) }
{
    let types = stack_at(code, place as usize + 1);
    match gives(instr) {
        true => (front(types), last(types)),
        false => (types, None),
    }
}

/// What stays is below what stands there, where the frame goes on.
fn stays<'c>(found: &mut Found<'c>, ended: bool, rest: &'c [SemType], stay: &'c [SemType])
    ensures { Finds (only_if (not ended) (below_needs rest.now stay.now)) found.old found.new }
{
    match ended {
        true => {}
        false => below_each(found, rest, stay),
    }
}

/// What the operation of an instruction needs at its place; a test fails where it names what isn't there, or does no operation.
pub(crate) fn does<'c>(
    found: &mut Found<'c>,
    site: Site<'c>,
    place: u32,
    lent: Lent<'c>,
    instr: &'c Instr,
)
    requires lent { AreLent lent }
    requires here { AreOf site.code.now (types_at site.code.now place) lent.own.now lent.field.now (option_copied lent.pairs) instr.now }
    ensures { Finds (doing site.entry place (command_of site.entry.code.now instr.now)) found.old found.new }
{
    let (rest, operands) = operands_at(site.code, place, instr);
    let (stay, given) = result_at(site.code, place, instr);
    row(found, site, Taken { operands, given }, lent, instr);
    stays(found, ends(instr), rest, stay);
}
