//! The unit at hand.
ghost use Rattle.std.specs.Prelude.{◌≡◌, ◌++◌, ◌∷◌, [], IfOk, OnOk, Some as There, length};
ghost use Rattle.check_words.specs.State.{UnitAtWork};
ghost use Rattle.check_work.specs.Views.{unit_of};

use crate::work::Unit;
use bal_base::Memory;
use typed_tree::SharedTy;

impl Unit {
    /// A slot more, of this declared type; gives its number.
    pub fn new_slot(&mut self, ty: SharedTy) -> Result<u32, Memory>
        ensures slot { IfOk result (λ slot. slot ≡ length self.old.slots.items) }
        ensures unit { OnOk result (unit_of self.new ≡ record (unit_of self.old) { slots = self.old.slots.items ++ ty ∷ [] }) }
    {
        let slot = self.slots.len();
        if slot > u32::MAX as usize {
            return Err(Memory);
        }
        self.slots.push(ty)?;
        Ok(slot as u32)
    }
}

/// The unit at hand. Where there is none it is as if memory were wanted.
pub fn at_hand(unit: &Option<Unit>) -> Result<&Unit, Memory>
    ensures { IfOk result (λ u. unit.now ≡ There u.now) }
{
    match unit {
        Some(unit) => Ok(unit),
        None => Err(Memory),
    }
}
