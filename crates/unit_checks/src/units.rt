//! The first place of a unit that doesn't stand.
ghost use Rattle.std.specs.Prelude.{IfOk};
ghost use Rattle.bal_base.specs.Stops.{IfFault};
ghost use Rattle.type_model.specs.Calls.{KeepsTypes};
ghost use Rattle.needs_of_places.specs.Sites.{station_of};
ghost use Rattle.needs_of_commands.specs.Askable.{HasDefined};
ghost use Rattle.place_numbers.specs.Rowed.{AreRowsOf};
ghost use Rattle.place_checks.specs.Stopping.{StopsFirst};
ghost use Rattle.unit_checks.specs.Ready.{HasPlaces, IsReady};
ghost use Rattle.unit_checks.specs.Telling.{UnitTells};

use crate::places::{Checking, place_stands};
use atom_questions::QuestionLimit;
use bal_base::{Shape, Stop};
use code_numbers::trap_rows;
use needs_of_places::Site;
use place_checks::Standing;
use std::alloc::Global;
use type_model::Types;

/// A place that doesn't stand.
#[derive(Drop)]
pub struct Fallen {
    /// The place.
    pub place: u32,
    /// A shape that shows that a need of it isn't met; none where its numbers don't pass.
    pub shape: Option<Shape>,
}

/// The first place of the unit that doesn't stand, by the rows of its traps.
fn fallen_by<T: Types>(
    alloc: Global,
    types: &mut T,
    checking: Checking<'_>,
    site: Site<'_>,
    rows: &[Option<u32>],
) -> Result<Option<Fallen>, Stop<QuestionLimit>>
    requires ready { IsReady site checking (T.atoms types.old) }
    requires defined { HasDefined site.code.now }
    requires rows { AreRowsOf site rows.now }
    ensures kept { KeepsTypes (T.atoms types.old) (T.atoms types.new) }
    ensures told { IfOk result (UnitTells site.entry.code.now site.entry.unit.now (station_of site.entry)) }
    ensures limit { IfFault result (StopsFirst T.passes site.entry.code.now site.entry.unit.now (station_of site.entry) checking.entry.serving.known.now) }
{
    for place in site.unit.first..site.unit.end {
        if let Standing::Falls(shape) = place_stands(alloc, types, checking, site, place, rows)? {
            return Ok(Some(Fallen { place, shape }));
        }
    }
    Ok(None)
}

/// The first place of the unit that doesn't stand, or none where all of them do. `Atoms` or `Types` where a question of the first place
/// that isn't known to stand stops so. It asks about each place up to that one.
pub fn first_fallen<T: Types>(
    alloc: Global,
    types: &mut T,
    checking: Checking<'_>,
    site: Site<'_>,
) -> Result<Option<Fallen>, Stop<QuestionLimit>>
    requires ready { IsReady site checking (T.atoms types.old) }
    requires defined { HasDefined site.code.now }
    requires places { HasPlaces site }
    ensures kept { KeepsTypes (T.atoms types.old) (T.atoms types.new) }
    ensures told { IfOk result (UnitTells site.entry.code.now site.entry.unit.now (station_of site.entry)) }
    ensures limit { IfFault result (StopsFirst T.passes site.entry.code.now site.entry.unit.now (station_of site.entry) checking.entry.serving.known.now) }
{
    let instrs = site.code.instrs.as_slice();
    let rows = trap_rows(alloc, instrs, site.unit.first, site.unit.end)?;
    fallen_by(alloc, types, checking, site, rows.as_slice())
}
