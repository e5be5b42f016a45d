//! The decider as what can be asked of types.
ghost use Rattle.type_diagrams.specs.Reach.{Passes};

use crate::decider::Decider;
use bal_base::{Memory, Shape, Stop};
use std::alloc::Global;
use type_model::{Answer, Apply, AtomDef, AtomLimit, Keys, SemType, TypeEnv, TypeLimit, Types};

impl Types for Decider {
    ghost atoms = { λ decider. decider.atoms };

    ghost passes = { λ atoms asked limit. Passes atoms asked limit };

    fn env(&self) -> &TypeEnv {
        Decider::env(self)
    }

    fn add(&mut self, _alloc: Global, defs: Vec<AtomDef>) -> Result<u32, Stop<AtomLimit>> {
        Decider::add(self, defs)
    }

    fn sub(&mut self, alloc: Global, s: &SemType, t: &SemType) -> Result<Answer, Stop<TypeLimit>> {
        Decider::sub(self, alloc, s, t)
    }

    fn has_shape(&mut self, alloc: Global, t: &SemType) -> Result<Option<Shape>, Stop<TypeLimit>> {
        Decider::has_shape(self, alloc, t)
    }

    fn member(
        &mut self,
        alloc: Global,
        t: &SemType,
        keys: &Keys,
    ) -> Result<SemType, Stop<TypeLimit>> {
        Decider::member(self, alloc, t, keys)
    }

    fn apply(
        &mut self,
        alloc: Global,
        f: &SemType,
        args: &SemType,
    ) -> Result<Apply, Stop<TypeLimit>> {
        Decider::apply(self, alloc, f, args)
    }

    fn compact(&mut self, alloc: Global, t: &SemType) -> Result<SemType, Memory> {
        Decider::compact(self, alloc, t)
    }
}
