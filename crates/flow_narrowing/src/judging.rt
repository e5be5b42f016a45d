//! Which shapes may belong to values that failed a test, kind by kind.
ghost use Rattle.std.specs.Prelude.{◌≡◌, IfOk};
ghost use Rattle.bal_base.specs.Stops.{IfFault};
ghost use Rattle.checks.specs.Questions.{IsYes};
ghost use Rattle.type_model.specs.Defined.{IsDefined};
ghost use Rattle.flow_narrowing.specs.Asked.{NarrowsBeyond};
ghost use Rattle.flow_narrowing.specs.Judged.{IsFailing, IsJudged, Settles};

use crate::combined::{not, with_all};
use crate::kind::Kind;
use bal_base::Stop;
use std::alloc::Global;
use type_model::{Answer, SemType, TypeLimit, Types};

/// Whether the answer is yes; the shape of a no is given up.
fn is_yes(answer: Answer) -> bool
    ensures { IsYes answer result }
{
    match answer {
        Answer::Yes => true,
        Answer::No(_) => false,
    }
}

/// Whether the shapes of `s` of this kind for which a value may stand beside others are all in `t`.
fn lies_in<T: Types>(
    alloc: Global,
    types: &mut T,
    s: &SemType,
    t: &SemType,
    kind: Kind,
) -> Result<bool, Stop<TypeLimit>>
    requires left { IsDefined (T.atoms types.old) s.now }
    requires right { IsDefined (T.atoms types.old) t.now }
    ensures atoms { T.atoms types.new ≡ T.atoms types.old }
    ensures settles { IfOk result (Settles (T.atoms types.old) s.now t.now kind) }
    ensures limit { IfFault result (NarrowsBeyond T.passes (T.atoms types.old) s.now t.now) }
{
    let part = kind.open_part(alloc, s)?;
    let answer = types.sub(alloc, &part, t)?;
    Ok(is_yes(answer))
}

/// What may have failed, with all shapes of the kind unless the part of `s` lies in `t`.
fn judge<T: Types>(
    alloc: Global,
    types: &mut T,
    s: &SemType,
    t: &SemType,
    kind: Kind,
    failed: SemType,
) -> Result<SemType, Stop<TypeLimit>>
    requires left { IsDefined (T.atoms types.old) s.now }
    requires right { IsDefined (T.atoms types.old) t.now }
    requires failed { IsDefined (T.atoms types.old) failed }
    ensures atoms { T.atoms types.new ≡ T.atoms types.old }
    ensures defined { IfOk result (IsDefined (T.atoms types.old)) }
    ensures judged { IfOk result (IsJudged (T.atoms types.old) s.now t.now kind failed) }
    ensures limit { IfFault result (NarrowsBeyond T.passes (T.atoms types.old) s.now t.now) }
{
    if lies_in(alloc, types, s, t, kind)? {
        return Ok(failed);
    }
    Ok(with_all(alloc, failed, kind.all())?)
}

/// A type that has of the shapes of `s` those for which a value may stand that isn't of `t`.
pub(crate) fn failing<T: Types>(
    alloc: Global,
    types: &mut T,
    s: &SemType,
    t: &SemType,
) -> Result<SemType, Stop<TypeLimit>>
    requires left { IsDefined (T.atoms types.old) s.now }
    requires right { IsDefined (T.atoms types.old) t.now }
    ensures atoms { T.atoms types.new ≡ T.atoms types.old }
    ensures defined { IfOk result (IsDefined (T.atoms types.old)) }
    ensures failing { IfOk result (IsFailing (T.atoms types.old) s.now t.now) }
    ensures limit { IfFault result (NarrowsBeyond T.passes (T.atoms types.old) s.now t.now) }
{
    let failed = not(alloc, t)?;
    let failed = judge(alloc, types, s, t, Kind::Lists, failed)?;
    let failed = judge(alloc, types, s, t, Kind::Mappings, failed)?;
    let failed = judge(alloc, types, s, t, Kind::Functions, failed)?;
    judge(alloc, types, s, t, Kind::Futures, failed)
}
