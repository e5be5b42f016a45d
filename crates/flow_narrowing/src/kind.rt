//! The kinds of values that may stand for more than one shape.
ghost use Rattle.std.specs.Prelude.{◌≡◌, IfOk};
ghost use Rattle.flow_narrowing.specs.Asked.{IsOpenPart, IsOpenSet, IsUnmarkedSet, all_of as set_of};

use crate::combined::copied;
use bal_base::Memory;
use std::alloc::Global;
use type_model::{BasicSet, SemType};

/// A kind of values that may stand for more than one shape.
#[derive(Clone, Copy)]
pub(crate) enum Kind {
    Lists,
    Mappings,
    Functions,
    Futures,
}

impl Kind {
    /// All shapes of the kind.
    pub(crate) fn all(self) -> BasicSet
        ensures { result ≡ set_of self }
    {
        match self {
            Kind::Lists => BasicSet::ListAll,
            Kind::Mappings => BasicSet::MappingAll,
            Kind::Functions => BasicSet::FunctionAll,
            Kind::Futures => BasicSet::FutureAll,
        }
    }

    /// The shapes of the kind for which a value may stand beside others.
    fn open(self, alloc: Global) -> Result<SemType, Memory>
        ensures { IfOk result (IsOpenSet self) }
    {
        match self {
            Kind::Lists => unmarked(alloc, BasicSet::ListAll),
            Kind::Mappings => unmarked(alloc, BasicSet::MappingAll),
            Kind::Functions => Ok(SemType::Basic(BasicSet::FunctionAll)),
            Kind::Futures => Ok(SemType::Basic(BasicSet::FutureAll)),
        }
    }

    /// The shapes of the type that are such shapes.
    pub(crate) fn open_part(self, alloc: Global, s: &SemType) -> Result<SemType, Memory>
        ensures { IfOk result (IsOpenPart self s.now) }
    {
        let s = copied(alloc, s)?;
        let open = Box::new(alloc, self.open(alloc)?)?;
        Ok(SemType::And(s, open))
    }
}

/// The shapes of the set without the mark.
fn unmarked(alloc: Global, set: BasicSet) -> Result<SemType, Memory>
    ensures { IfOk result (IsUnmarkedSet set) }
{
    let readonly = Box::new(alloc, SemType::Basic(BasicSet::Readonly))?;
    let set = Box::new(alloc, SemType::Basic(set))?;
    let rest = Box::new(alloc, SemType::Not(readonly))?;
    Ok(SemType::And(set, rest))
}
