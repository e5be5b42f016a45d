//! Units that have their places one behind another.
ghost use Rattle.std.specs.Prelude.{◌↔◌, IsTrue, length};
ghost use Rattle.stack_code.specs.Tables.{FollowFrom};

use stack_code::Code;

/// Whether the units have the places from the first one up to the last one, one unit behind another, and each has one.
pub fn units_follow(code: &Code) -> bool
    ensures { IsTrue result ↔ FollowFrom code.now 0 code.now.units (length code.now.instrs) }
{
    let mut next = 0;
    for unit in code.units.as_slice() {
        if unit.first != next || unit.end <= unit.first {
            return false;
        }
        next = unit.end;
    }
    next as usize == code.instrs.as_slice().len()
}
