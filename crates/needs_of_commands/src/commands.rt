//! What the instruction at a place needs there.
ghost use Rattle.std.specs.Option.{option_copied};
ghost use Rattle.std.specs.Prelude.{◌≤◌, ◌-◌, ◌+◌};
ghost use Rattle.stack_code.specs.Commands.{command_at, command_of};
ghost use Rattle.stack_code.specs.Places.{stack_at as types_at};
ghost use Rattle.code_needs.specs.Combining.{◌&◌, of_some};
ghost use Rattle.code_needs.specs.PlaceNeeds.{command_needs, landing_needs, place_needs as all_needs};
ghost use Rattle.code_needs.specs.RowNeeds.{below_each as below_needs};
ghost use Rattle.code_numbers.specs.Traps.{AreTrapRows};
ghost use Rattle.needs_of_rows.specs.Finding.{Finds};
ghost use Rattle.needs_of_places.specs.Lending.{AreLent};
ghost use Rattle.needs_of_places.specs.Sites.{station_of};
ghost use Rattle.needs_of_commands.specs.Loans.{AreLentAt, AreOf};

use crate::branches::{goes_either, goes_on, landing};
use crate::chains::traps;
use crate::does::does;
use crate::stacks::instr_at;
use needs_of_places::{Lent, Site};
use needs_of_rows::Found;
use stack_code::Instr;

/// Where a trap lands, and the next place.
fn opens<'c>(found: &mut Found<'c>, site: Site<'c>, place: u32, to: u32)
    ensures { Finds (landing_needs site.entry.code.now site.entry.unit.now (station_of site.entry) place to & below_needs (types_at site.entry.code.now place) (types_at site.entry.code.now (place + 1))) found.old found.new }
{
    landing(found, site, place, to);
    goes_on(found, site, place, place as usize + 1);
}

/// What an instruction needs at the place; a test fails where it names what isn't there.
fn instr_needs<'c>(
    found: &mut Found<'c>,
    site: Site<'c>,
    place: u32,
    lent: Lent<'c>,
    instr: &'c Instr,
)
    requires lent { AreLent lent }
    requires here { AreOf site.code.now (types_at site.code.now place) lent.own.now lent.field.now (option_copied lent.pairs) instr.now }
    ensures { Finds (of_some (command_of site.entry.code.now instr.now) (command_needs site.entry.code.now site.entry.unit.now (station_of site.entry) place)) found.old found.new }
{
    match instr {
        Instr::Jump(to) => goes_on(found, site, place, *to as usize),
        Instr::JumpIfNot(to) => goes_either(found, site, place, *to),
        Instr::Trap(to) => opens(found, site, place, *to),
        Instr::Untrap => goes_on(found, site, place, place as usize + 1),
        _ => does(found, site, place, lent, instr),
    }
}

/// Finds what the instruction at a place needs there; a test fails where there is none, or where it names what isn't there.
pub fn command<'c>(found: &mut Found<'c>, site: Site<'c>, place: u32, lent: Lent<'c>)
    requires { AreLentAt site.code.now place lent }
    ensures { Finds (of_some (command_at site.entry.code.now place) (command_needs site.entry.code.now site.entry.unit.now (station_of site.entry) place)) found.old found.new }
{
    match instr_at(site.code, place) {
        Some(instr) => instr_needs(found, site, place, lent, instr),
        None => found.refuse(),
    }
}

/// Finds all that a place needs in its unit, as this worker of its function: what its instruction does, and the traps in whose reach
/// it is, by the rows of the unit.
pub fn place_needs<'c>(
    found: &mut Found<'c>,
    site: Site<'c>,
    place: u32,
    rows: &[Option<u32>],
    lent: Lent<'c>,
)
    requires rows { AreTrapRows site.code.now site.unit.now.first (site.unit.now.end - site.unit.now.first) rows.now }
    requires from { site.unit.now.first ≤ place }
    requires to { place ≤ site.unit.now.end }
    requires lent { AreLentAt site.code.now place lent }
    ensures { Finds (all_needs site.entry.code.now site.entry.unit.now (station_of site.entry) place) found.old found.new }
{
    command(found, site, place, lent);
    traps(found, site, place, rows);
}
