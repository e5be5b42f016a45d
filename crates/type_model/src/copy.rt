//! Copies of types.
ghost use Rattle.std.specs.Prelude.{◌≡◌, IfOk};
ghost use Rattle.type_model.specs.SameType.{IsSameType};

use crate::basic::{BasicSet, SemType};
use bal_base::Memory;
use std::alloc::Global;

impl BasicSet {
    /// A copy of the set, which shares its text. Takes no memory.
    pub fn copy(&self) -> BasicSet
        ensures { result ≡ self.now }
    {
        match self {
            BasicSet::Nil => BasicSet::Nil,
            BasicSet::Bool(b) => BasicSet::Bool(*b),
            BasicSet::IntRange(low, high) => BasicSet::IntRange(*low, *high),
            BasicSet::StringOne(text) => BasicSet::StringOne(text.share()),
            BasicSet::StringAll => BasicSet::StringAll,
            BasicSet::ListAll => BasicSet::ListAll,
            BasicSet::MappingAll => BasicSet::MappingAll,
            BasicSet::ErrorAll => BasicSet::ErrorAll,
            BasicSet::FunctionAll => BasicSet::FunctionAll,
            BasicSet::FutureAll => BasicSet::FutureAll,
            BasicSet::Readonly => BasicSet::Readonly,
            BasicSet::Never => BasicSet::Never,
        }
    }
}

impl SemType {
    /// A copy of the type, which shares its texts.
    pub fn copy(&self, alloc: Global) -> Result<SemType, Memory>
        ensures { IfOk result (IsSameType self.now) }
    {
        match self {
            SemType::Basic(set) => Ok(SemType::Basic(set.copy())),
            SemType::Atom(n) => Ok(SemType::Atom(*n)),
            SemType::Or(s, t) => {
                let s = Box::new(alloc, s.copy(alloc)?)?;
                let t = Box::new(alloc, t.copy(alloc)?)?;
                Ok(SemType::Or(s, t))
            }
            SemType::And(s, t) => {
                let s = Box::new(alloc, s.copy(alloc)?)?;
                let t = Box::new(alloc, t.copy(alloc)?)?;
                Ok(SemType::And(s, t))
            }
            SemType::Not(t) => Ok(SemType::Not(Box::new(alloc, t.copy(alloc)?)?)),
        }
    }
}
