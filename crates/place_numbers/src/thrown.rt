//! With which numbers panics land.
ghost use Rattle.std.specs.Prelude.{◌↔◌, IsTrue};
ghost use Rattle.stack_code.specs.Flow.{HasTalliesOf};
ghost use Rattle.needs_of_places.specs.Sites.{station_of};
ghost use Rattle.place_numbers.specs.inner.Parts.{IsReached, LandsWith};
ghost use Rattle.place_numbers.specs.Rowed.{AreRowsOf, IsRowed};

use crate::changes::change_landing;
use crate::counts::{counts_at, has_changed};
use crate::reach::is_reached;
use needs_of_commands::instr_at;
use needs_of_places::Site;

/// Whether a panic comes from the place with the numbers that are known where it lands.
fn lands_with(site: Site<'_>, place: u32, to: u32) -> bool
    ensures { IsTrue result ↔ LandsWith site.entry.code.now site.entry.unit.now (station_of site.entry) place to }
{
    let before = counts_at(site.code, place as usize);
    let known = counts_at(site.code, to as usize);
    let change = change_landing(instr_at(site.code, place));
    has_changed(before, known, change, 0)
}

/// The same, where the place is in the reach of the trap.
fn lands_so(site: Site<'_>, rows: &[Option<u32>], place: u32, trap: u32, to: u32) -> bool
    requires rows { AreRowsOf site rows.now }
    requires rowed { IsRowed site place }
    ensures { IsTrue result ↔ (IsReached site.entry.code.now site.entry.unit.now (station_of site.entry) place trap → LandsWith site.entry.code.now site.entry.unit.now (station_of site.entry) place to) }
{
    match is_reached(site, rows, place, trap) {
        true => lands_with(site, place, to),
        false => true,
    }
}

/// Whether panics come from all places in the reach of the trap with the numbers that are known where it lands.
pub(crate) fn has_tallies(site: Site<'_>, rows: &[Option<u32>], trap: u32, to: u32) -> bool
    requires { AreRowsOf site rows.now }
    ensures { IsTrue result ↔ HasTalliesOf site.entry.code.now site.entry.unit.now (station_of site.entry) trap to }
{
    for place in site.unit.first..site.unit.end {
        if !lands_so(site, rows, place, trap, to) {
            return false;
        }
    }
    true
}
