//! The units that were met so far.
#![tactic(auto, using(crate::proofs::Noting::noting))]

ghost use Rattle.std.specs.Prelude.{◌≡◌};
ghost use Rattle.package_units.specs.Held.{tree_of};
ghost use Rattle.package_units.specs.Noted.{noted, noted_of};

use crate::held::HeldUnit;

/// The units that were met so far, by their numbers.
#[derive(Drop)]
pub struct Noted<'a> {
    pub units: Vec<Option<HeldUnit<'a>>>,
    /// Each has one of the numbers, and none has that of another.
    pub fits: bool,
}

impl<'a> Noted<'a> {
    /// Notes a unit at its number. It doesn't fit where there is no such number or another unit has it.
    pub fn note(&mut self, met: HeldUnit<'a>)
        ensures { noted_of self.new ≡ noted (tree_of met.entry) (noted_of self.old) }
    {
        let number = met.unit.number as usize;
        if number >= self.units.len() {
            self.fits = false;
            return;
        }
        match self.units[number] {
            None => self.units[number] = Some(met),
            Some(_) => self.fits = false,
        }
    }
}
