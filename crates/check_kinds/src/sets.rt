//! How the kinds of values are written.
ghost use Rattle.std.specs.Prelude.{◌≡◌};
ghost use Rattle.check_kinds.specs.Sets.{all_ints, sets_of};

use expr_needs::Kind;
use type_model::BasicSet;

/// One or two basic sets, or anydata, alone or with a basic set.
#[derive(Drop)]
pub(crate) enum Sets {
    One(BasicSet),
    Two(BasicSet, BasicSet),
    Data,
    DataOr(BasicSet),
}

/// All ints.
pub(crate) fn ints() -> BasicSet
    ensures { result ≡ all_ints }
{
    BasicSet::IntRange(i64::MIN, i64::MAX)
}

/// The sets of which the kind is.
pub(crate) fn kind_sets(kind: Kind) -> Sets
    ensures { result ≡ sets_of kind }
{
    match kind {
        Kind::Integer => Sets::One(ints()),
        Kind::Text => Sets::One(BasicSet::StringAll),
        Kind::IntOrText => Sets::Two(ints(), BasicSet::StringAll),
        Kind::Truth => Sets::Two(BasicSet::Bool(true), BasicSet::Bool(false)),
        Kind::Nothing => Sets::One(BasicSet::Nil),
        Kind::Anydata => Sets::Data,
        Kind::Sendable => Sets::DataOr(BasicSet::Readonly),
        Kind::AnyList => Sets::One(BasicSet::ListAll),
        Kind::AnyMapping => Sets::One(BasicSet::MappingAll),
        Kind::MappingOrNil => Sets::Two(BasicSet::MappingAll, BasicSet::Nil),
        Kind::AnyFunction => Sets::One(BasicSet::FunctionAll),
        Kind::AnyError => Sets::One(BasicSet::ErrorAll),
        Kind::ErrorOrNil => Sets::Two(BasicSet::ErrorAll, BasicSet::Nil),
        Kind::AnyFuture => Sets::One(BasicSet::FutureAll),
    }
}
