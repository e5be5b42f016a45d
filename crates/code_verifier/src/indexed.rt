//! Needs of what stands in lists at the indexes that a type names.
ghost use Rattle.std.specs.Prelude.{◌≡◌, IfOk};
ghost use Rattle.bal_base.specs.declared.shape.Shape.{Int};
ghost use Rattle.bal_base.specs.Stops.{IfFault};
ghost use Rattle.type_model.specs.declared.basic.BasicSet.TheVariants.{IntRange};
ghost use Rattle.type_model.specs.declared.basic.SemType.{Basic};
ghost use Rattle.type_model.specs.Calls.{Without};
ghost use Rattle.type_model.specs.Defined.{IsDefined};
ghost use Rattle.type_model.specs.Inclusion.{AnswersSub, FindsShape, IsShapeOf};
ghost use Rattle.code_needs.specs.Needs.{ItemHas, ItemIn};
ghost use Rattle.code_verifier.specs.Asked.{Answers};
ghost use Rattle.code_verifier.specs.Indexed.{AreIndexesOf, IsIndexBy, index_at};
ghost use Rattle.code_verifier.specs.LedTo.{AsksIndex, AsksItem, AsksOfItem, SomePasses};

use crate::asking::{part_has, part_is_in};
use bal_base::{Shape, Stop};
use std::alloc::Global;
use type_model::{Answer, BasicSet, Keys, SemType, TypeLimit, Types};

/// The index of this int, or all indexes where it is none.
fn index(n: &i64) -> Keys
    ensures { result ≡ index_at n.now }
{
    let value = *n;
    if value < 0 {
        return Keys::AnyIndex;
    }
    Keys::Index(value as u64)
}

/// The index of this int, where the answer is that there is no other, and else all indexes.
fn index_by(answer: Answer, n: &i64) -> Keys
    ensures { IsIndexBy n.now answer result }
{
    match answer {
        Answer::Yes => index(n),
        Answer::No(_) => Keys::AnyIndex,
    }
}

/// This int alone.
fn one_int(n: &i64) -> BasicSet
    ensures { result ≡ IntRange n.now n.now }
{
    BasicSet::IntRange(*n, *n)
}

/// Whether a type has no shape but this int. `TypeLimit` where the question is too large.
fn is_only_int<T: Types>(
    alloc: Global,
    types: &mut T,
    i: &SemType,
    n: &i64,
) -> Result<Answer, Stop<TypeLimit>>
    requires { IsDefined (T.atoms types.old) i.now }
    ensures atoms { T.atoms types.new ≡ T.atoms types.old }
    ensures answer { IfOk result (AnswersSub (T.atoms types.old) i.now (Basic (IntRange n.now n.now))) }
    ensures limit { IfFault result (T.passes (T.atoms types.old) (Without i.now (Basic (IntRange n.now n.now)))) }
{
    let one = SemType::Basic(one_int(n));
    types.sub(alloc, i, &one)
}

/// The indexes that a type names that has this int. `TypeLimit` where the question is too large.
fn indexes_with<T: Types>(
    alloc: Global,
    types: &mut T,
    i: &SemType,
    n: &i64,
) -> Result<Keys, Stop<TypeLimit>>
    requires defined { IsDefined (T.atoms types.old) i.now }
    requires there { IsShapeOf (T.atoms types.old) i.now (Int n.now) }
    ensures atoms { T.atoms types.new ≡ T.atoms types.old }
    ensures keys { IfOk result (AreIndexesOf (T.atoms types.old) i.now) }
    ensures limit { IfFault result (T.passes (T.atoms types.old) (Without i.now (Basic (IntRange n.now n.now)))) }
{
    match is_only_int(alloc, types, i, n) {
        Ok(answer) => Ok(index_by(answer, n)),
        Err(stop) => Err(stop),
    }
}

/// The indexes that a type names that has this shape. `TypeLimit` where a question is too large.
fn indexes_of_shape<T: Types>(
    alloc: Global,
    types: &mut T,
    i: &SemType,
    shape: &Shape,
) -> Result<Keys, Stop<TypeLimit>>
    requires defined { IsDefined (T.atoms types.old) i.now }
    requires there { IsShapeOf (T.atoms types.old) i.now shape.now }
    ensures atoms { T.atoms types.new ≡ T.atoms types.old }
    ensures keys { IfOk result (AreIndexesOf (T.atoms types.old) i.now) }
    ensures limit { IfFault result (SomePasses T.passes (T.atoms types.old) (AsksIndex (T.atoms types.old) i.now)) }
{
    match shape {
        Shape::Int(n) => indexes_with(alloc, types, i, n),
        _ => Ok(Keys::AnyIndex),
    }
}

/// The same, or all where no shape was found.
fn indexes_of_found<T: Types>(
    alloc: Global,
    types: &mut T,
    i: &SemType,
    found: Option<Shape>,
) -> Result<Keys, Stop<TypeLimit>>
    requires defined { IsDefined (T.atoms types.old) i.now }
    requires found { FindsShape (T.atoms types.old) i.now found }
    ensures atoms { T.atoms types.new ≡ T.atoms types.old }
    ensures keys { IfOk result (AreIndexesOf (T.atoms types.old) i.now) }
    ensures limit { IfFault result (SomePasses T.passes (T.atoms types.old) (AsksIndex (T.atoms types.old) i.now)) }
{
    match found {
        Some(shape) => indexes_of_shape(alloc, types, i, &shape),
        None => Ok(Keys::AnyIndex),
    }
}

/// The indexes that a type names: one where it has a single int from 0 on, and else all. It costs up to two questions.
/// `TypeLimit` where one of them is too large.
fn named_indexes<T: Types>(
    alloc: Global,
    types: &mut T,
    i: &SemType,
) -> Result<Keys, Stop<TypeLimit>>
    requires { IsDefined (T.atoms types.old) i.now }
    ensures atoms { T.atoms types.new ≡ T.atoms types.old }
    ensures keys { IfOk result (AreIndexesOf (T.atoms types.old) i.now) }
    ensures limit { IfFault result (SomePasses T.passes (T.atoms types.old) (AsksIndex (T.atoms types.old) i.now)) }
{
    match types.has_shape(alloc, i) {
        Ok(found) => indexes_of_found(alloc, types, i, found),
        Err(stop) => Err(stop),
    }
}

/// Whether all that stands in the first type, of lists, at an index that the second names is in the third. It costs up to four
/// questions. `TypeLimit` where one of them is too large.
pub fn item_is_in<T: Types>(
    alloc: Global,
    types: &mut T,
    l: &SemType,
    i: &SemType,
    t: &SemType,
) -> Result<Answer, Stop<TypeLimit>>
    requires left { IsDefined (T.atoms types.old) l.now }
    requires indexes { IsDefined (T.atoms types.old) i.now }
    requires right { IsDefined (T.atoms types.old) t.now }
    ensures atoms { T.atoms types.new ≡ T.atoms types.old }
    ensures answers { IfOk result (Answers (T.atoms types.old) (ItemIn l.now i.now t.now)) }
    ensures limit { IfFault result (SomePasses T.passes (T.atoms types.old) (AsksItem (T.atoms types.old) l.now i.now t.now)) }
{
    match named_indexes(alloc, types, i) {
        Ok(keys) => part_is_in(alloc, types, l, &keys, t),
        Err(stop) => Err(stop),
    }
}

/// Whether each shape of the third type stands in the first, of lists, at an index that the second names. It costs up to four
/// questions. `TypeLimit` where one of them is too large.
pub fn item_has<T: Types>(
    alloc: Global,
    types: &mut T,
    l: &SemType,
    i: &SemType,
    v: &SemType,
) -> Result<Answer, Stop<TypeLimit>>
    requires left { IsDefined (T.atoms types.old) l.now }
    requires indexes { IsDefined (T.atoms types.old) i.now }
    requires right { IsDefined (T.atoms types.old) v.now }
    ensures atoms { T.atoms types.new ≡ T.atoms types.old }
    ensures answers { IfOk result (Answers (T.atoms types.old) (ItemHas l.now i.now v.now)) }
    ensures limit { IfFault result (SomePasses T.passes (T.atoms types.old) (AsksOfItem (T.atoms types.old) l.now i.now v.now)) }
{
    match named_indexes(alloc, types, i) {
        Ok(keys) => part_has(alloc, types, l, &keys, v),
        Err(stop) => Err(stop),
    }
}
