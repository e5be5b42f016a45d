//! Laws of lowered code. These calls do nothing: their clauses are laws.
ghost use Rattle.lowered_typing.specs.Landing.{UnitsLandWell};
ghost use Rattle.lowered_typing.specs.Laws.{CodeIsTypedByMaps, UnitsAreTypedInTurn};

/// Where units are typed as they are written, each command that is made for them takes what the map at its place has and leaves what is
/// below the map at the next one; and each jump and trap is to a label of its own unit, whose place is in the unit or right behind it
/// and has types above. So each command of a code that has all this takes what the map at its place has, and leaves what is below the maps
/// of the places where it goes on.
pub fn typed_units()
    ensures units { UnitsAreTypedInTurn }
    ensures code { CodeIsTypedByMaps }
{}

/// In code that has what is made for units each jump and each trap leads to a place of its own unit, forward or to a tick, and in the
/// reach of the same traps; each trap that is closed is open, and behind the last place of a unit none is. So it is for all trees.
pub fn landings()
    ensures { UnitsLandWell }
{}
