//! The first definition of each name.
ghost use Rattle.std.specs.Prelude.{◌≡◌, IfOk, List, OnOk, None as Absent, Some as Present, cond, ℕ};
ghost use Rattle.std.specs.Option.{option_or};
ghost use Rattle.name_resolution.specs.Resolved.{defines};
ghost use Rattle.name_resolution.specs.Tables.{IsTableOf, number_in};

use crate::outlines::Outline;
use bal_base::{Memory, Name};
use indexmap::IndexMap;
use std::alloc::Global;

/// A name in a module.
#[derive(PartialEq, Eq, Hash, Drop)]
pub(crate) struct Key {
    module: usize,
    name: Name,
}

/// The first definition of each name, by its number in text order.
#[derive(Drop)]
pub(crate) struct NameTable {
    numbers: IndexMap<Key, usize>,
}

impl NameTable {
    pub(crate) fn of(alloc: Global, outlines: &[Outline]) -> Result<NameTable, Memory>
        ensures { IfOk result (λ table. IsTableOf outlines.now table.numbers) }
    {
        let mut table = NameTable {
            numbers: IndexMap::new(alloc),
        };
        for (number, d) in outlines.iter().enumerate() {
            table.note(number, d)?;
        }
        Ok(table)
    }

    /// The number of the first definition of a name in a module.
    pub(crate) fn number(&self, module: usize, name: &Name) -> Option<usize>
        ensures { result ≡ number_in self.now.numbers «module» name.now }
    {
        let key = Key {
            module,
            name: name.share(),
        };
        self.numbers.get(&key).copied()
    }

    /// One more definition, behind the others.
    fn note(&mut self, number: usize, d: &Outline) -> Result<(), Memory>
        ensures { OnOk result ((m : ℕ) (name : List ℕ) → number_in self.new.numbers m name ≡ option_or (number_in self.old.numbers m name) (cond (defines m name d.now) (Present number) Absent)) }
    {
        if self.number(d.module, &d.name).is_none() {
            let key = Key {
                module: d.module,
                name: d.name.share(),
            };
            self.numbers.insert(key, number)?;
        }
        Ok(())
    }
}
