//! Tests of types, and casts.
ghost use Rattle.std.specs.Prelude.{◌≡◌, IfOk};
ghost use Rattle.operations.specs.declared.operation.Operation.TheVariants as operation;
ghost use Rattle.typed_tree.specs.SharedTypes.{sem_of};
ghost use Rattle.plain_run.specs.declared.held.Caller.{Caller as CallerOf};
ghost use Rattle.plain_run.specs.Came.{WorldStays, came_of};
ghost use Rattle.plain_run.specs.Effects.{IsPerformed, Stays};
ghost use Rattle.held_operations.specs.Operation as operations;
ghost use Rattle.plain_tests.specs.Tells.{AreBeyond, IsCast, Tells};

use crate::belonging::belongs;
use bal_base::Memory;
use held_operations::TestedType;
use operations::Constant;
use plain_run::{Came, Common, Heap, Performed, ProgramFacts, World, lifted, panics, told};
use std::alloc::Global;
use type_model::{BasicSet, SemType};
use typed_tree::SharedTy;
use value_model::{PanicName, Value};

/// The type of one constant.
fn singleton(c: &Constant) -> SemType
    ensures { result ≡ operations.singleton c.now }
{
    match c {
        Constant::Nil => SemType::Basic(BasicSet::Nil),
        Constant::Bool(b) => SemType::Basic(BasicSet::Bool(*b)),
        Constant::Int(i) => SemType::Basic(BasicSet::IntRange(*i, *i)),
        Constant::Str(text) => SemType::Basic(BasicSet::StringOne(text.share())),
    }
}

/// Whether the value belongs to the tested type, where that is told.
fn belongs_to(
    alloc: Global,
    facts: &ProgramFacts,
    heap: &Heap,
    v: &Value,
    t: TestedType,
) -> Result<Option<bool>, Memory>
    ensures { IfOk result (Tells facts.now heap.now v.now (operations.type_of t.entry)) }
{
    match t {
        TestedType::Tree(ty) => belongs(alloc, facts, heap, v, &ty.sem),
        TestedType::Nil => belongs(alloc, facts, heap, v, &SemType::Basic(BasicSet::Nil)),
        TestedType::Error => belongs(alloc, facts, heap, v, &SemType::Basic(BasicSet::ErrorAll)),
        TestedType::Single(c) => belongs(alloc, facts, heap, v, &singleton(c)),
    }
}

/// `v is T`. `Undecided` has a cause of its own, `IsBeyond`.
pub fn perform_test(
    alloc: Global,
    facts: &ProgramFacts,
    t: TestedType,
    operands: &[Value],
    common: &Common,
) -> Result<Performed, Memory>
    ensures row { IfOk result (λ done. (caller : CallerOf) → IsPerformed facts.now (operation.Test (operations.type_of t.entry)) operands.now caller common.now common.now (AreBeyond facts.now common.now.world.heap operands.now (operations.type_of t.entry)) done) }
    ensures stays { IfOk result (Stays common.now common.now) }
{
    match operands {
        [v] => match belongs_to(alloc, facts, &common.world.heap, v, t)? {
            Some(holds) => Ok(told(holds)),
            None => Ok(Performed::Undecided),
        },
        _ => Ok(Performed::Stuck),
    }
}

/// The value, or a panic where it doesn't belong to the type.
fn casts(alloc: Global, world: &mut World, v: &Value, holds: bool) -> Result<Came, Memory>
    ensures row { IfOk result (λ came. IsCast world.old v.now holds world.new came) }
    ensures stays { IfOk result (WorldStays world.old world.new) }
{
    if holds {
        return Ok(Came::Gave(Some(v.share())));
    }
    panics(alloc, world, PanicName::TypeCastError)
}

/// `<T>v`. `Undecided` has a cause of its own, `IsBeyond`.
pub fn perform_cast(
    alloc: Global,
    facts: &ProgramFacts,
    t: &SharedTy,
    operands: &[Value],
    common: &mut Common,
) -> Result<Performed, Memory>
    ensures row { IfOk result (λ done. (caller : CallerOf) → IsPerformed facts.now (operation.Cast (sem_of t.now)) operands.now caller common.old common.new (AreBeyond facts.now common.old.world.heap operands.now (sem_of t.now)) done) }
    ensures stays { IfOk result (Stays common.old common.new) }
{
    match operands {
        [v] => match belongs(alloc, facts, &common.world.heap, v, &t.sem)? {
            Some(holds) => {
                let came = casts(alloc, &mut common.world, v, holds)?;
                Ok(Performed::Done(lifted(came)))
            }
            None => Ok(Performed::Undecided),
        },
        _ => Ok(Performed::Stuck),
    }
}
