//! Simple fillers of types: nil, single values, and the first value of a kind.
ghost use Rattle.std.specs.Prelude.{◌≡◌, IfOk, Option};
ghost use Rattle.bal_base.specs.Stops.{IfFault};
ghost use Rattle.bal_base.specs.declared.shape.Shape.{Shape as ShapeOf};
ghost use Rattle.type_model.specs.declared.basic.SemType.{Basic};
ghost use Rattle.type_model.specs.Defined.{IsDefined};
ghost use Rattle.type_model.specs.Inclusion.{FindsShape, IsShapeOf, Sub};
ghost use Rattle.value_model.specs.declared.filler.Filler.{Filler as FillerOf};
ghost use Rattle.code_verifier.specs.LedTo.{SomePasses};
ghost use Rattle.filler_tables.specs.Asked.{AsksKind, AsksShape, AsksSimple, AsksValue};
ghost use Rattle.filler_tables.specs.Values.{alone_of, IsKindOf, sample_of as sample_of_found, sample_of_shape};
ghost use Rattle.filler_tables.specs.declared.values.Sample.TheVariants.{Value};
ghost use Rattle.filler_tables.specs.inner.Telling.{IsAmong, IsSimple, LacksNil};

use crate::asking::{has_all, is_within};
use crate::values::{Kind, Sample, alone, kind_of, sample_of, share};
use bal_base::{Memory, Stop};
use code_verifier::is_subtype;
use std::alloc::Global;
use type_model::{BasicSet, SemType, TypeLimit, Types};
use value_model::Filler;

/// What is known of the simple filler of a type.
#[derive(Drop)]
pub enum Simple {
    /// It has this one.
    Filled(Filler),
    /// It has none, and it has a shape.
    Unfilled,
    /// It has no shape.
    Shapeless,
}

/// Whether the type has only values of the kind, and among them the first.
fn is_among<T: Types>(
    alloc: Global,
    types: &mut T,
    t: &SemType,
    kind: &Kind,
) -> Result<bool, Stop<TypeLimit>>
    requires defined { IsDefined (T.atoms types.old) t.now }
    requires kind { IsDefined (T.atoms types.old) kind.now.whole }
    ensures atoms { T.atoms types.new ≡ T.atoms types.old }
    ensures among { IfOk result (IsAmong (T.atoms types.old) t.now kind.now) }
    ensures limit { IfFault result (SomePasses T.passes (T.atoms types.old) (AsksKind t.now kind.now)) }
{
    match is_subtype(alloc, types, t, &kind.whole) {
        Ok(true) => has_all(alloc, types, t, alone(&kind.first)),
        Ok(false) => Ok(false),
        Err(stop) => Err(stop),
    }
}

/// The filler of a type that has another value beside this one, of this kind.
fn by_kind<T: Types>(
    alloc: Global,
    types: &mut T,
    t: &SemType,
    kind: &Kind,
) -> Result<Simple, Stop<TypeLimit>>
    requires defined { IsDefined (T.atoms types.old) t.now }
    requires kind { IsDefined (T.atoms types.old) kind.now.whole }
    ensures atoms { T.atoms types.new ≡ T.atoms types.old }
    ensures simple { (x : ShapeOf) (own : FillerOf) → IsShapeOf (T.atoms types.old) t.now x → sample_of_shape x ≡ Value own → IsKindOf own kind.now → LacksNil (T.atoms types.old) t.now → ¬ Sub (T.atoms types.old) t.now (Basic (alone_of own)) → IfOk result (IsSimple (T.atoms types.old) t.now) }
    ensures limit { IfFault result (SomePasses T.passes (T.atoms types.old) (AsksKind t.now kind.now)) }
{
    match is_among(alloc, types, t, kind) {
        Ok(true) => Ok(Simple::Filled(share(&kind.first))),
        Ok(false) => Ok(Simple::Unfilled),
        Err(stop) => Err(stop),
    }
}

/// The filler of a type that has another value beside this one.
fn by_others<T: Types>(
    alloc: Global,
    types: &mut T,
    t: &SemType,
    own: &Filler,
) -> Result<Simple, Stop<TypeLimit>>
    requires { IsDefined (T.atoms types.old) t.now }
    ensures atoms { T.atoms types.new ≡ T.atoms types.old }
    ensures simple { (x : ShapeOf) → IsShapeOf (T.atoms types.old) t.now x → sample_of_shape x ≡ Value own.now → LacksNil (T.atoms types.old) t.now → ¬ Sub (T.atoms types.old) t.now (Basic (alone_of own.now)) → IfOk result (IsSimple (T.atoms types.old) t.now) }
    ensures limit { IfFault result (SomePasses T.passes (T.atoms types.old) (AsksValue t.now own.now)) }
{
    match kind_of(alloc, own) {
        Ok(kind) => by_kind(alloc, types, t, &kind),
        Err(Memory) => Err(Stop::Memory),
    }
}

/// The filler of a type without nil that has this value.
fn by_value<T: Types>(
    alloc: Global,
    types: &mut T,
    t: &SemType,
    own: &Filler,
) -> Result<Simple, Stop<TypeLimit>>
    requires { IsDefined (T.atoms types.old) t.now }
    ensures atoms { T.atoms types.new ≡ T.atoms types.old }
    ensures simple { (x : ShapeOf) → IsShapeOf (T.atoms types.old) t.now x → sample_of_shape x ≡ Value own.now → LacksNil (T.atoms types.old) t.now → IfOk result (IsSimple (T.atoms types.old) t.now) }
    ensures limit { IfFault result (SomePasses T.passes (T.atoms types.old) (AsksValue t.now own.now)) }
{
    match is_within(alloc, types, t, alone(own)) {
        Ok(true) => Ok(Simple::Filled(share(own))),
        Ok(false) => by_others(alloc, types, t, own),
        Err(stop) => Err(stop),
    }
}

/// The filler of a type without nil of which this was found.
fn by_sample<T: Types>(
    alloc: Global,
    types: &mut T,
    t: &SemType,
    sample: &Sample,
) -> Result<Simple, Stop<TypeLimit>>
    requires { IsDefined (T.atoms types.old) t.now }
    ensures atoms { T.atoms types.new ≡ T.atoms types.old }
    ensures simple { (found : Option ShapeOf) → FindsShape (T.atoms types.old) t.now found → sample.now ≡ sample_of_found found → LacksNil (T.atoms types.old) t.now → IfOk result (IsSimple (T.atoms types.old) t.now) }
    ensures limit { (found : Option ShapeOf) → FindsShape (T.atoms types.old) t.now found → sample.now ≡ sample_of_found found → IfFault result (SomePasses T.passes (T.atoms types.old) (AsksShape (T.atoms types.old) t.now)) }
{
    match sample {
        Sample::Value(own) => by_value(alloc, types, t, own),
        Sample::Other => Ok(Simple::Unfilled),
        Sample::Empty => Ok(Simple::Shapeless),
    }
}

/// The filler of a type without nil.
fn by_shape<T: Types>(alloc: Global, types: &mut T, t: &SemType) -> Result<Simple, Stop<TypeLimit>>
    requires { IsDefined (T.atoms types.old) t.now }
    ensures atoms { T.atoms types.new ≡ T.atoms types.old }
    ensures simple { LacksNil (T.atoms types.old) t.now → IfOk result (IsSimple (T.atoms types.old) t.now) }
    ensures limit { IfFault result (SomePasses T.passes (T.atoms types.old) (AsksShape (T.atoms types.old) t.now)) }
{
    match types.has_shape(alloc, t) {
        Ok(found) => by_sample(alloc, types, t, &sample_of(found)),
        Err(stop) => Err(stop),
    }
}

/// The simple filler of a type, by at most five questions. `TypeLimit` where one of them is too large.
pub(crate) fn simple_filler<T: Types>(
    alloc: Global,
    types: &mut T,
    t: &SemType,
) -> Result<Simple, Stop<TypeLimit>>
    requires { IsDefined (T.atoms types.old) t.now }
    ensures atoms { T.atoms types.new ≡ T.atoms types.old }
    ensures simple { IfOk result (IsSimple (T.atoms types.old) t.now) }
    ensures limit { IfFault result (SomePasses T.passes (T.atoms types.old) (AsksSimple (T.atoms types.old) t.now)) }
{
    match has_all(alloc, types, t, BasicSet::Nil) {
        Ok(true) => Ok(Simple::Filled(Filler::Nil)),
        Ok(false) => by_shape(alloc, types, t),
        Err(stop) => Err(stop),
    }
}
