//! Whether one place stands.
ghost use Rattle.std.specs.Prelude.{IfOk};
ghost use Rattle.bal_base.specs.Stops.{IfFault};
ghost use Rattle.type_model.specs.Calls.{KeepsTypes};
ghost use Rattle.needs_of_places.specs.Sites.{station_of};
ghost use Rattle.needs_of_commands.specs.Askable.{HasDefined};
ghost use Rattle.place_numbers.specs.Rowed.{AreRowsOf, IsRowed};
ghost use Rattle.place_checks.specs.Telling.{PlaceTells};
ghost use Rattle.unit_checks.specs.Ready.{IsReady};
ghost use Rattle.unit_checks.specs.Telling.{PlaceStops};

use crate::made::made_callable;
use atom_questions::QuestionLimit;
use bal_base::Stop;
use needs_of_places::Site;
use place_checks::{Serving, Standing, needs_decide_standing, place_needs_stand};
use place_numbers::numbers_pass;
use std::alloc::Global;
use type_model::Types;

/// What serves all units of a code.
#[derive(Clone, Copy)]
pub struct Checking<'c> {
    /// What serves all questions.
    pub serving: Serving<'c>,
    /// For each unit, whether function values and futures of it can be called.
    pub callable: &'c [bool],
}

/// Whether the place stands: its numbers pass and its needs are met, else a shape shows a need that isn't, or there is none where its
/// numbers don't pass. `Atoms` or `Types` where the first undecided question stops so.
pub fn place_stands<T: Types>(
    alloc: Global,
    types: &mut T,
    checking: Checking<'_>,
    site: Site<'_>,
    place: u32,
    rows: &[Option<u32>],
) -> Result<Standing, Stop<QuestionLimit>>
    requires ready { IsReady site checking (T.atoms types.old) }
    requires defined { HasDefined site.code.now }
    requires rows { AreRowsOf site rows.now }
    requires rowed { IsRowed site place }
    ensures kept { KeepsTypes (T.atoms types.old) (T.atoms types.new) }
    ensures told { IfOk result (PlaceTells site.entry.code.now site.entry.unit.now (station_of site.entry) place) }
    ensures limit { IfFault result (PlaceStops site.entry.code.now site.entry.unit.now (station_of site.entry) T.passes checking.entry.serving.known.now place) }
{
    needs_decide_standing();
    if !made_callable(checking.callable, site.code, place) {
        return Ok(Standing::Falls(None));
    }
    if !numbers_pass(site, rows, place) {
        return Ok(Standing::Falls(None));
    }
    place_needs_stand(alloc, types, checking.serving, site, place, rows)
}
