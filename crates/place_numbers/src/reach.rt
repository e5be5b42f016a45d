//! In the reach of which traps places are, and what those have kept.
ghost use Rattle.std.specs.Prelude.{◌≡◌, ◌↔◌, ◌≤◌, ◌<◌, ℕ, false, List, None as Absent, Some as There, All, Contains, IsTrue, is_some, length};
ghost use Rattle.type_model.specs.declared.basic.SemType.{SemType as AnyType};
ghost use Rattle.stack_code.specs.Flow.{IsInTrap, KeepsBelow, LandsAt};
ghost use Rattle.stack_code.specs.Places.{IsIn, stack_at as types_at, traps_at};
ghost use Rattle.code_numbers.specs.Traps.{IsChain};
ghost use Rattle.needs_of_places.specs.Sites.{station_of};
ghost use Rattle.needs_of_commands.specs.inner.Descending.{Descends};
ghost use Rattle.place_numbers.specs.inner.Parts.{IsReached, IsTickAt, tick_so};
ghost use Rattle.place_numbers.specs.Rowed.{AreRowsOf, IsRowed};

use needs_of_commands::{instr_at, outside, row_at, stack_at};
use needs_of_places::Site;
use stack_code::{Code, Instr, Unit};

// ---- places

/// Whether the place is in the unit.
pub(crate) fn is_in(unit: &Unit, place: usize) -> bool
    ensures { IsTrue result ↔ IsIn unit.now place }
{
    unit.first as usize <= place && place < unit.end as usize
}

/// Whether the instruction spends a tick.
fn is_tick(instr: &Instr) -> bool
    ensures { result ≡ tick_so instr.now }
{
    match instr {
        Instr::Tick => true,
        _ => false,
    }
}

/// Whether a tick is spent at the place.
fn is_tick_at(code: &Code, place: u32) -> bool
    ensures { IsTrue result ↔ IsTickAt code.now place }
{
    match instr_at(code, place) {
        Some(instr) => is_tick(instr),
        None => false,
    }
}

// ---- chains of traps

/// Whether the trap has kept at most so many operands.
fn keeps_at_most(code: &Code, trap: u32, most: usize) -> bool
    ensures { IsTrue result ↔ (length (types_at code.now trap) ≤ most) }
{
    stack_at(code, trap as usize).len() <= most
}

/// Whether each trap from the innermost one on has kept at most so many operands.
fn keep_at_most(
    code: &Code,
    rows: &[Option<u32>],
    first: u32,
    innermost: Option<u32>,
    most: usize,
) -> bool
    requires descends { Descends first rows.now }
    requires chain { (ts : List ℕ) × IsChain first rows.now innermost ts }
    ensures { (ts : List ℕ) → IsChain first rows.now innermost ts → IsTrue result ↔ All (λ t. length (types_at code.now t) ≤ most) ts }
{
    let mut next = innermost;
    while let Some(trap) = next {
        if !keeps_at_most(code, trap, most) {
            return false;
        }
        next = outside(rows, first, trap);
    }
    true
}

/// Whether they are one trap.
fn is_one(other: u32, trap: u32) -> bool
    ensures { IsTrue result ↔ (other ≡ trap) }
{
    other == trap
}

/// Whether the trap is one of those from the innermost one on.
fn is_among(rows: &[Option<u32>], first: u32, innermost: Option<u32>, trap: u32) -> bool
    requires descends { Descends first rows.now }
    requires chain { (ts : List ℕ) × IsChain first rows.now innermost ts }
    ensures { (ts : List ℕ) → IsChain first rows.now innermost ts → IsTrue result ↔ Contains ts trap }
{
    let mut next = innermost;
    while let Some(other) = next {
        if is_one(other, trap) {
            return true;
        }
        next = outside(rows, first, other);
    }
    false
}

// ---- a place

/// Whether what the traps have kept in whose reach the place is stays below so many operands.
pub(crate) fn keeps_below(site: Site<'_>, rows: &[Option<u32>], place: u32, most: usize) -> bool
    requires rows { AreRowsOf site rows.now }
    requires rowed { IsRowed site place }
    ensures { (rest : List AnyType) → length rest ≡ most → IsTrue result ↔ KeepsBelow site.entry.code.now site.entry.unit.now (station_of site.entry) place rest }
{
    match row_at(rows, site.unit.first, place) {
        Some(innermost) => keep_at_most(site.code, rows, site.unit.first, innermost, most),
        None => false,
    }
}

/// Whether the place is in the reach of the trap.
pub(crate) fn is_reached(site: Site<'_>, rows: &[Option<u32>], place: u32, trap: u32) -> bool
    requires rows { AreRowsOf site rows.now }
    requires rowed { IsRowed site place }
    ensures { IsTrue result ↔ IsReached site.entry.code.now site.entry.unit.now (station_of site.entry) place trap }
{
    match row_at(rows, site.unit.first, place) {
        Some(innermost) => is_among(rows, site.unit.first, innermost, trap),
        None => false,
    }
}

/// Whether the row names a trap.
fn is_open(innermost: Option<u32>) -> bool
    ensures { result ≡ is_some innermost }
{
    match innermost {
        Some(_) => true,
        None => false,
    }
}

/// Whether a trap is open at the place.
pub(crate) fn is_in_trap(site: Site<'_>, rows: &[Option<u32>], place: u32) -> bool
    requires rows { AreRowsOf site rows.now }
    requires rowed { IsRowed site place }
    ensures { IsTrue result ↔ IsInTrap site.entry.code.now site.entry.unit.now (station_of site.entry) place }
{
    match row_at(rows, site.unit.first, place) {
        Some(innermost) => is_open(innermost),
        None => false,
    }
}

/// Whether both rows name the same trap, or none.
fn is_same_row(row: Option<u32>, other: Option<u32>) -> bool
    ensures { IsTrue result ↔ (row ≡ other) }
{
    row == other
}

/// Whether this row is there, and the other one is the same.
fn is_row(row: Option<u32>, other: Option<Option<u32>>) -> bool
    ensures { IsTrue result ↔ (There row ≡ other) }
{
    match other {
        Some(other) => is_same_row(row, other),
        None => false,
    }
}

/// Whether no row is there.
fn is_no_row(other: Option<Option<u32>>) -> bool
    ensures { IsTrue result ↔ (Absent ≡ other) }
{
    match other {
        Some(_) => false,
        None => true,
    }
}

/// Whether both rows are the same, or neither is there.
fn are_same_rows(row: Option<Option<u32>>, other: Option<Option<u32>>) -> bool
    ensures { IsTrue result ↔ (row ≡ other) }
{
    match row {
        Some(row) => is_row(row, other),
        None => is_no_row(other),
    }
}

/// Whether both places are in the reach of the same traps.
fn in_same_traps(site: Site<'_>, rows: &[Option<u32>], place: u32, other: u32) -> bool
    requires rows { AreRowsOf site rows.now }
    requires rowed { IsRowed site place }
    requires other { IsRowed site other }
    ensures { IsTrue result ↔ (traps_at site.entry.code.now site.entry.unit.now other ≡ traps_at site.entry.code.now site.entry.unit.now place) }
{
    let row = row_at(rows, site.unit.first, other);
    are_same_rows(row, row_at(rows, site.unit.first, place))
}

/// Whether the place comes behind this one.
fn is_forward(place: u32, to: u32) -> bool
    ensures forward { IsTrue result → place < to }
    ensures back { result ≡ false → to ≤ place }
{
    place < to
}

/// Whether a place comes behind this one, or a tick is spent there.
fn may_go(code: &Code, place: u32, to: u32) -> bool
    ensures { IsTrue result ↔ (to ≤ place → IsTickAt code.now to) }
{
    match is_forward(place, to) {
        true => true,
        false => is_tick_at(code, to),
    }
}

/// Whether a jump or a trap may name the place: forward, or where a tick is spent, and in the reach of the same traps.
pub(crate) fn lands_at(site: Site<'_>, rows: &[Option<u32>], place: u32, to: u32) -> bool
    requires rows { AreRowsOf site rows.now }
    requires rowed { IsRowed site place }
    ensures { IsTrue result ↔ LandsAt site.entry.code.now site.entry.unit.now (station_of site.entry) place to }
{
    if !is_in(site.unit, to as usize) {
        return false;
    }
    may_go(site.code, place, to) && in_same_traps(site, rows, place, to)
}
