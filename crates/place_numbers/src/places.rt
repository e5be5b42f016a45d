//! The numbers of one place.
ghost use Rattle.std.specs.Prelude.{◌≡◌, ◌↔◌, ◌+◌, IsTrue, Some as There, length};
ghost use Rattle.operations.specs.declared.operation.Operation.{Operation as Done};
ghost use Rattle.machine_model.specs.Following.{EndsFrame};
ghost use Rattle.stack_code.specs.declared.code.Code.{Code as AnyCode};
ghost use Rattle.stack_code.specs.Commands.{Do, command_of};
ghost use Rattle.stack_code.specs.Flow.{IsInTrap, KeepsBelow, LandsAt, workers_here};
ghost use Rattle.stack_code.specs.Places.{stack_at as types_at, tally_at};
ghost use Rattle.code_needs.specs.PlaceNeeds.{DoesPass, Reaches};
ghost use Rattle.code_needs.specs.Stacks.{front_of, rest_of};
ghost use Rattle.needs_of_places.specs.Sites.{station_of};
ghost use Rattle.place_numbers.specs.inner.Changing.{changed};
ghost use Rattle.place_numbers.specs.inner.Parts.{BranchParts, IsUnstarted, ReachesSo, TellsInstr, TrapParts};
ghost use Rattle.place_numbers.specs.Numbers.{TellsNumbers};
ghost use Rattle.place_numbers.specs.Rowed.{AreRowsOf, IsRowed};

use crate::changes::{Change, change_behind};
use crate::counts::{counts_at, crew_size, has_changed, is_absent};
use crate::reach::{is_in, is_in_trap, keeps_below, lands_at};
use crate::thrown::has_tallies;
use needs_of_commands::{ends, instr_at, operand_count, stack_at};
use needs_of_places::Site;
use stack_code::Instr;

// ---- where a place goes on

/// Whether a place has the numbers that become of those of this one.
fn becomes(site: Site<'_>, place: u32, to: usize, change: Change) -> bool
    ensures { IsTrue result ↔ (tally_at site.entry.code.now to ≡ changed (workers_here site.entry.code.now site.entry.unit.now (station_of site.entry)) change (tally_at site.entry.code.now place)) }
{
    let before = counts_at(site.code, place as usize);
    let behind = counts_at(site.code, to);
    let workers = crew_size(site.code, site.function);
    has_changed(before, behind, change, workers)
}

/// Whether it goes on at a place of the unit that has the numbers that become of its own.
fn reaches(site: Site<'_>, place: u32, to: usize, change: Change) -> bool
    ensures { IsTrue result ↔ ReachesSo site.entry.code.now site.entry.unit.now (station_of site.entry) place to change }
{
    is_in(site.unit, to) && becomes(site, place, to, change)
}

/// The same, with its own numbers.
fn reaches_same(site: Site<'_>, place: u32, to: usize) -> bool
    ensures { IsTrue result ↔ Reaches site.entry.code.now site.entry.unit.now (station_of site.entry) place to (tally_at site.entry.code.now place) }
{
    reaches(site, place, to, Change::More(None, None))
}

/// The same at the next place.
fn reaches_next(site: Site<'_>, place: u32) -> bool
    ensures { IsTrue result ↔ Reaches site.entry.code.now site.entry.unit.now (station_of site.entry) place (place + 1) (tally_at site.entry.code.now place) }
{
    reaches_same(site, place, place as usize + 1)
}

/// At the next place and at the other one.
fn reaches_both(site: Site<'_>, place: u32, to: u32) -> bool
    ensures { IsTrue result ↔ (Reaches site.entry.code.now site.entry.unit.now (station_of site.entry) place (place + 1) (tally_at site.entry.code.now place) × Reaches site.entry.code.now site.entry.unit.now (station_of site.entry) place to (tally_at site.entry.code.now place)) }
{
    reaches_next(site, place) && reaches_same(site, place, to as usize)
}

/// Whether the frame ends with the instruction, or goes on at the next place.
fn goes_on(site: Site<'_>, place: u32, instr: &Instr, change: Change) -> bool
    ensures { (code : AnyCode) (o : Done) → command_of code instr.now ≡ There (Do o) → IsTrue result ↔ ((¬ (EndsFrame o)) → ReachesSo site.entry.code.now site.entry.unit.now (station_of site.entry) place (place + 1) change) }
{
    match ends(instr) {
        true => true,
        false => reaches(site, place, place as usize + 1, change),
    }
}

// ---- what is done there

/// Whether named workers are started from a place without numbers.
fn is_unstarted(site: Site<'_>, place: u32, change: Change) -> bool
    ensures { IsTrue result ↔ IsUnstarted site.entry.code.now site.entry.unit.now (station_of site.entry) place change }
{
    match change {
        Change::Begun => is_absent(counts_at(site.code, place as usize)),
        Change::More(_, _) => true,
    }
}

/// How many operands stay below those of the instruction.
fn count_below(site: Site<'_>, place: u32, instr: &Instr) -> usize
    ensures { (o : Done) → command_of site.entry.code.now instr.now ≡ There (Do o) → length (rest_of o (types_at site.entry.code.now place)) ≡ result }
{
    let types = stack_at(site.code, place as usize);
    types.len().saturating_sub(operand_count(site.code, instr))
}

/// The numbers of an operation.
fn does_pass(site: Site<'_>, rows: &[Option<u32>], place: u32, instr: &Instr) -> bool
    requires rows { AreRowsOf site rows.now }
    requires rowed { IsRowed site place }
    ensures { (o : Done) → command_of site.entry.code.now instr.now ≡ There (Do o) → IsTrue result ↔ DoesPass site.entry.code.now site.entry.unit.now (station_of site.entry) place o }
{
    let change = change_behind(instr);
    let below = count_below(site, place, instr);
    if !keeps_below(site, rows, place, below) {
        return false;
    }
    is_unstarted(site, place, change) && goes_on(site, place, instr, change)
}

/// Those of a jump.
fn jump_passes(site: Site<'_>, rows: &[Option<u32>], place: u32, to: u32) -> bool
    requires rows { AreRowsOf site rows.now }
    requires rowed { IsRowed site place }
    ensures { IsTrue result ↔ (LandsAt site.entry.code.now site.entry.unit.now (station_of site.entry) place to × Reaches site.entry.code.now site.entry.unit.now (station_of site.entry) place to (tally_at site.entry.code.now place)) }
{
    lands_at(site, rows, place, to) && reaches_same(site, place, to as usize)
}

/// Whether what the traps have kept stays below the condition.
fn keeps_front(site: Site<'_>, rows: &[Option<u32>], place: u32) -> bool
    requires rows { AreRowsOf site rows.now }
    requires rowed { IsRowed site place }
    ensures { IsTrue result ↔ KeepsBelow site.entry.code.now site.entry.unit.now (station_of site.entry) place (front_of (types_at site.entry.code.now place)) }
{
    let types = stack_at(site.code, place as usize);
    keeps_below(site, rows, place, types.len().saturating_sub(1))
}

/// Those of a branch.
fn branch_passes(site: Site<'_>, rows: &[Option<u32>], place: u32, to: u32) -> bool
    requires rows { AreRowsOf site rows.now }
    requires rowed { IsRowed site place }
    ensures { IsTrue result ↔ BranchParts site.entry.code.now site.entry.unit.now (station_of site.entry) place to }
{
    keeps_front(site, rows, place)
        && lands_at(site, rows, place, to)
        && reaches_both(site, place, to)
}

/// Those of a trap.
fn trap_passes(site: Site<'_>, rows: &[Option<u32>], place: u32, to: u32) -> bool
    requires rows { AreRowsOf site rows.now }
    requires rowed { IsRowed site place }
    ensures { IsTrue result ↔ TrapParts site.entry.code.now site.entry.unit.now (station_of site.entry) place to }
{
    lands_at(site, rows, place, to)
        && has_tallies(site, rows, place, to)
        && reaches_next(site, place)
}

/// Those of the end of a trap.
fn end_passes(site: Site<'_>, rows: &[Option<u32>], place: u32) -> bool
    requires rows { AreRowsOf site rows.now }
    requires rowed { IsRowed site place }
    ensures { IsTrue result ↔ (IsInTrap site.entry.code.now site.entry.unit.now (station_of site.entry) place × Reaches site.entry.code.now site.entry.unit.now (station_of site.entry) place (place + 1) (tally_at site.entry.code.now place)) }
{
    is_in_trap(site, rows, place) && reaches_next(site, place)
}

// ---- all

/// Those of an instruction.
fn instr_passes(site: Site<'_>, rows: &[Option<u32>], place: u32, instr: &Instr) -> bool
    requires rows { AreRowsOf site rows.now }
    requires rowed { IsRowed site place }
    ensures { TellsInstr site.entry.code.now site.entry.unit.now (station_of site.entry) place instr.now result }
{
    match instr {
        Instr::Jump(to) => jump_passes(site, rows, place, *to),
        Instr::JumpIfNot(to) => branch_passes(site, rows, place, *to),
        Instr::Trap(to) => trap_passes(site, rows, place, *to),
        Instr::Untrap => end_passes(site, rows, place),
        _ => does_pass(site, rows, place, instr),
    }
}

/// Whether the tests of numbers pass of what the instruction does at the place, where all that it names in the tables is there. It grows
/// with the traps in whose reach the place is, and for a trap with its unit.
pub fn numbers_pass(site: Site<'_>, rows: &[Option<u32>], place: u32) -> bool
    requires rows { AreRowsOf site rows.now }
    requires rowed { IsRowed site place }
    ensures { TellsNumbers site.entry.code.now site.entry.unit.now (station_of site.entry) place result }
{
    match instr_at(site.code, place) {
        Some(instr) => instr_passes(site, rows, place, instr),
        None => false,
    }
}
