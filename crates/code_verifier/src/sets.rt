//! Which basic sets kinds are put together of.
ghost use Rattle.std.specs.Prelude.{◌≡◌};
ghost use Rattle.code_verifier.specs.KindSets.{all_ints, constant_set as set_of_constant, sets_of};

use code_needs::Kind;
use operations::Constant;
use type_model::BasicSet;

/// One or two basic sets, or what may stand in immutable structures.
#[derive(Drop)]
pub(crate) enum Sets {
    One(BasicSet),
    Either(BasicSet, BasicSet),
    Both(BasicSet, BasicSet),
    Frozen,
}

/// All ints.
pub(crate) fn ints() -> BasicSet
    ensures { result ≡ all_ints }
{
    BasicSet::IntRange(i64::MIN, i64::MAX)
}

/// The sets of which the kind is, or `None` where it has anydata in it.
pub(crate) fn kind_sets(kind: Kind) -> Option<Sets>
    ensures { result ≡ sets_of kind }
{
    match kind {
        Kind::Nils => Some(Sets::One(BasicSet::Nil)),
        Kind::Booleans => Some(Sets::Either(BasicSet::Bool(true), BasicSet::Bool(false))),
        Kind::Integers => Some(Sets::One(ints())),
        Kind::Strings => Some(Sets::One(BasicSet::StringAll)),
        Kind::Lists => Some(Sets::One(BasicSet::ListAll)),
        Kind::Mappings => Some(Sets::One(BasicSet::MappingAll)),
        Kind::Errors => Some(Sets::One(BasicSet::ErrorAll)),
        Kind::Functions => Some(Sets::One(BasicSet::FunctionAll)),
        Kind::Futures => Some(Sets::One(BasicSet::FutureAll)),
        Kind::Anydata | Kind::Sendable => None,
        Kind::ImmutableData => Some(Sets::Frozen),
        Kind::Details => Some(Sets::Both(BasicSet::MappingAll, BasicSet::Readonly)),
        Kind::NilsOrErrors => Some(Sets::Either(BasicSet::Nil, BasicSet::ErrorAll)),
        Kind::MappingsOrNils => Some(Sets::Either(BasicSet::MappingAll, BasicSet::Nil)),
        Kind::IntegersOrErrors => Some(Sets::Either(ints(), BasicSet::ErrorAll)),
    }
}

/// The set of this value alone. Takes no memory.
pub(crate) fn constant_set(value: &Constant) -> BasicSet
    ensures { result ≡ set_of_constant value.now }
{
    match value {
        Constant::Nil => BasicSet::Nil,
        Constant::Bool(b) => BasicSet::Bool(*b),
        Constant::Int(i) => BasicSet::IntRange(*i, *i),
        Constant::Str(text) => BasicSet::StringOne(text.share()),
    }
}
