//! Laws of placed units. This call does nothing: its clauses are laws.
ghost use Rattle.unit_crews.specs.Laws.{PlacedUnitsAreCrewed, PlacedUnitsAreUnits, PlacedUnitsHaveCrews};

/// The units that are placed, with what is known where they begin, are the units of the package, and the workers that are known there
/// are those of the functions in which they stand.
pub fn placed_crews()
    ensures crewed { PlacedUnitsAreCrewed }
    ensures units { PlacedUnitsAreUnits }
    ensures crews { PlacedUnitsHaveCrews }
{}
