//! Tables of tests: whether values of an atom belong to a type, and the fillers of its places.
ghost use Rattle.std.specs.Prelude.{◌≡◌, ◌<◌, ◌↔◌, IsTrue, Contains, IsSomeAnd, Some, length, min, slice_get};
ghost use Rattle.value_model.specs.Exact.{AnswersExactly, Fills, FillsExactly, IsWithinType};
ghost use Rattle.value_model.specs.Table.{AllowsPlace, IsExact, table_of, type_at};

use crate::filler::{Filler, FillerList};
use bal_base::Row;
use std::marker::Model;
use type_model::{AtomDef, SemType};

/// For the inherent atoms of a program, those that its structures, functions and futures are made with: whether their
/// values belong to the tested types, and the fillers of the places of its lists. The answers and fillers are exact.
#[derive(Drop)]
pub struct Tests {
    atoms: Vec<AtomDef>,
    inherent: Vec<u32>,
    tested: Vec<SemType>,
    units: Vec<(u32, u32)>,
    answers: Vec<Row<bool>>,
    fillers: Vec<FillerList>,
}

impl Model for Tests {
    ghost use Rattle.type_model.specs.contracts.basic.SemType as sem_type;
    ghost use Rattle.value_model.specs.Table.{TestTable, IsExact, table_of};
    ghost use Rattle.std.specs.Coded.{codes};

    ghost Value = { TestTable };

    ghost coded = { Prim.hlevel (codes, sem_type.the_row.coded) };

    ghost view = { λ t. table_of t.atoms.items t.inherent.items t.tested.items t.units.items t.answers.items t.fillers.items };

    ghost invariant = { λ t. IsExact (table_of t.atoms.items t.inherent.items t.tested.items t.units.items t.answers.items t.fillers.items) };
}

impl Tests {
    /// The table of these: for each inherent atom an answer for each tested type, and the fillers of its places, an
    /// empty list for an atom that is none of lists. They need to be exact. Takes no memory.
    pub fn of(
        atoms: Vec<AtomDef>,
        inherent: Vec<u32>,
        tested: Vec<SemType>,
        units: Vec<(u32, u32)>,
        answers: Vec<Row<bool>>,
        fillers: Vec<FillerList>,
    ) -> Tests
        requires { IsExact (table_of atoms.items inherent.items tested.items units.items answers.items fillers.items) }
        ensures { result ≡ table_of atoms.items inherent.items tested.items units.items answers.items fillers.items }
    {
        Tests {
            atoms,
            inherent,
            tested,
            units,
            answers,
            fillers,
        }
    }

    /// The answers for an inherent atom, one for each tested type. Takes no memory.
    pub fn answers(&self, atom: u32) -> &[bool]
        requires { Contains self.now.inherent atom }
        ensures { AnswersExactly self.now.atoms self.now.tested atom result.now }
    {
        self.answers[self.row(atom)].as_slice()
    }

    /// The fillers for an inherent atom, those of its fixed places and then that of its rest. Takes no memory.
    pub fn fillers(&self, atom: u32) -> &[Filler]
        requires { Contains self.now.inherent atom }
        ensures { FillsExactly self.now.atoms atom result.now }
    {
        self.fillers[self.row(atom)].as_slice()
    }

    /// Whether every value of the inherent atom belongs to the tested type with this number. Takes no memory.
    pub fn answer(&self, atom: u32, test: u32) -> bool
        requires inherent { Contains self.now.inherent atom }
        requires tested { test < length self.now.tested }
        ensures { IsSomeAnd (slice_get self.now.tested test) (λ t. IsTrue result ↔ IsWithinType self.now.atoms atom t) }
    {
        self.answers(atom)[test as usize]
    }

    /// The filler of a place that the inherent atom of lists allows: all places behind the fixed ones have that of the
    /// rest. Takes no memory.
    pub fn filler(&self, atom: u32, place: u64) -> &Filler
        requires inherent { Contains self.now.inherent atom }
        requires allowed { IsSomeAnd (slice_get self.now.atoms atom) (λ d. AllowsPlace d place) }
        ensures { IsSomeAnd (slice_get self.now.atoms atom) (λ d. IsSomeAnd (type_at d place) (λ t. Fills self.now.atoms t result.now)) }
    {
        let fillers = self.fillers(atom);
        &fillers[at_most(place, fillers.len() - 1)]
    }

    /// Where an inherent atom stands among them.
    fn row(&self, atom: u32) -> usize
        requires { Contains self.now.inherent atom }
        ensures { slice_get self.now.inherent result ≡ Some atom }
    {
        match self.inherent.iter().position(|a| *a == atom) {
            Some(place) => place,
            None => unreachable!(),
        }
    }

    /// The definitions of the atoms, in the order of their numbers. Takes no memory.
    pub fn atoms(&self) -> &[AtomDef]
        ensures { result.now ≡ self.now.atoms }
    {
        self.atoms.as_slice()
    }

    /// The inherent atoms. Takes no memory.
    pub fn inherent(&self) -> &[u32]
        ensures { result.now ≡ self.now.inherent }
    {
        self.inherent.as_slice()
    }

    /// The tested types. Takes no memory.
    pub fn tested(&self) -> &[SemType]
        ensures { result.now ≡ self.now.tested }
    {
        self.tested.as_slice()
    }

    /// Each unit's own arrow and future atom. Takes no memory.
    pub fn units(&self) -> &[(u32, u32)]
        ensures { result.now ≡ self.now.units }
    {
        self.units.as_slice()
    }
}

/// The place, or the last one where it is behind that.
fn at_most(place: u64, last: usize) -> usize
    ensures { result ≡ min place last }
{
    if place < last as u64 {
        place as usize
    } else {
        last
    }
}
