//! Names as expressions.
#![tactic(auto, using(crate::proofs::Putting::putting))]

ghost use Rattle.std.specs.Prelude.{◌≡◌, ◌↔◌, ◌&&◌, ℕ, IfOk, IfSome, List};
ghost use Rattle.descriptors.specs.declared.names.Meaning.TheVariants.{Constant as Known, Variable as Declared, Function as Named};
ghost use Rattle.descriptors.specs.Steps.{MeaningBelow, SignatureBelow};
ghost use Rattle.flow_narrowing.specs.Flows.{VariableBelow};
ghost use Rattle.operations.specs.Rows.{shape_of};
ghost use Rattle.type_model.specs.declared.atoms.AtomDef.{AtomDef as Atom};
ghost use Rattle.type_model.specs.Defined.{TyBelow};
ghost use Rattle.bal_base.specs.declared.shape.Shape.{Shape};
ghost use Rattle.type_model.specs.Membership.{In};
ghost use Rattle.check_kinds.specs.Sets.{constant_set as set_of_constant};
ghost use Rattle.check_words.specs.Sharing.{SameShared};
ghost use Rattle.check_words.specs.Stands.{PartBelow, SharedBelow};
ghost use Rattle.check_words.specs.State.{shared_now as now_shared};
ghost use Rattle.check_words.specs.Values.{gives_constant, gives_meaning, gives_seen, gives_variable};
ghost use Rattle.check_words.specs.Words.{fails as fails_of};
ghost use Rattle.seen_names.specs.Given.{IsSole, Puts, SeenBelow};
ghost use Rattle.seen_names.specs.Views.{seen_of};

use crate::seen::Seen;
use bal_base::{Fault, FaultCode, Kept, Memory, Place, Stop};
use check_kinds::single_type;
use check_words::{local, strict};
use check_work::shared;
use descriptors::{Meaning, Signature, copy, lift, plain};
use flow_narrowing::Variable;
use operations::Constant;
use std::alloc::Global;
use std::rc::Rc;
use type_model::{BasicSet, SemType, Ty};
use typed_tree::{SharedTy, StrictForm, TypedExpr};

/// There is none.
fn refused(code: FaultCode, at: Place) -> Result<TypedExpr, Stop<Fault>>
    ensures below { (n : ℕ) → IfOk result (PartBelow n) }
    ensures puts { Puts (fails_of code at) result }
{
    Err(Stop::Fault(Fault {
        code,
        at: Some(at),
        kept: Kept::Nothing,
    }))
}

/// The type that the variable has here, by another handle.
pub fn shared_now(v: &Variable) -> Result<SharedTy, Memory>
    ensures same { IfOk result (SameShared (now_shared v.now)) }
    ensures below { (n : ℕ) → VariableBelow n v.now → IfOk result (SharedBelow n) }
{
    match &v.narrowed {
        Some(t) => shared(t),
        None => shared(&v.declared),
    }
}

/// A captured variable that is assigned behind its declaration: it may not be used.
fn is_lost(v: &Variable) -> bool
    ensures { result ≡ (v.now.captured && v.now.assigned) }
{
    v.captured && v.assigned
}

/// The variable, at its slot and with the type that it has here.
fn part_of_variable(v: &Variable, at: Place) -> Result<TypedExpr, Stop<Fault>>
    ensures below { (n : ℕ) → VariableBelow n v.now → IfOk result (PartBelow n) }
    ensures puts { Puts (gives_variable v.now at) result }
{
    if is_lost(v) {
        return refused(FaultCode::Captured, at);
    }
    let ty = shared_now(v)?;
    Ok(local(v.slot, v.narrowed.is_some(), ty, at))
}

/// An expression of the form without operands.
fn sole(alloc: Global, form: StrictForm, ty: Ty, at: Place) -> Result<TypedExpr, Memory>
    ensures is { IfOk result (IsSole form ty at) }
    ensures below { (n : ℕ) → TyBelow n ty → IfOk result (PartBelow n) }
{
    let ty = Rc::new(alloc, ty)?;
    Ok(strict(form, Vec::new(alloc), ty, at))
}

/// A constant of the library.
fn part_of_constant(alloc: Global, value: Constant, at: Place) -> Result<TypedExpr, Stop<Fault>>
    ensures below { (n : ℕ) → IfOk result (PartBelow n) }
    ensures puts { Puts (gives_constant value at) result }
{
    let ty = single_type(alloc, &value);
    lift(sole(alloc, StrictForm::Constant(value), ty, at))
}

/// The value of which alone the set is, if there is one.
fn value_of_set(set: &BasicSet) -> Option<Constant>
    ensures { IfSome result (λ c. set.now ≡ set_of_constant c) }
{
    match set {
        BasicSet::Nil => Some(Constant::Nil),
        BasicSet::Bool(b) => Some(Constant::Bool(*b)),
        BasicSet::IntRange(first, last) => {
            if *first == *last {
                Some(Constant::Int(*first))
            } else {
                None
            }
        }
        BasicSet::StringOne(text) => Some(Constant::Str(text.share())),
        BasicSet::StringAll | BasicSet::ListAll | BasicSet::MappingAll => None,
        BasicSet::ErrorAll | BasicSet::FunctionAll | BasicSet::FutureAll => None,
        BasicSet::Readonly | BasicSet::Never => None,
    }
}

/// The constant whose value alone the type has, where it is written as the set of that value. Takes no memory.
pub fn single_value(t: &Ty) -> Option<Constant>
    ensures { IfSome result (λ c. (env : List Atom) (x : Shape) → In env x t.now.sem ↔ (x ≡ shape_of c)) }
{
    match &t.sem {
        SemType::Basic(set) => value_of_set(set),
        SemType::Atom(_) | SemType::Or(..) | SemType::And(..) | SemType::Not(_) => None,
    }
}

/// A constant of a module. Its type has its value alone, and where that is written otherwise it is as if memory were wanted.
fn part_of_known(alloc: Global, t: &Ty, at: Place) -> Result<TypedExpr, Stop<Fault>>
    ensures below { (n : ℕ) → TyBelow n t.now → IfOk result (PartBelow n) }
    ensures puts { Puts (gives_meaning (Known t.now) at) result }
{
    let Some(value) = single_value(t) else {
        return Err(Stop::Memory);
    };
    let ty = copy(alloc, t)?;
    lift(sole(alloc, StrictForm::Constant(value), ty, at))
}

/// A variable of a module.
fn part_of_declared(
    alloc: Global,
    number: u32,
    is_final: bool,
    t: &Ty,
    at: Place,
) -> Result<TypedExpr, Stop<Fault>>
    ensures below { (n : ℕ) → TyBelow n t.now → IfOk result (PartBelow n) }
    ensures puts { Puts (gives_meaning (Declared number is_final t.now) at) result }
{
    let ty = copy(alloc, t)?;
    lift(sole(alloc, StrictForm::Variable(number), ty, at))
}

/// A function, of the type of its own atom.
fn part_of_function(alloc: Global, f: &Signature, at: Place) -> Result<TypedExpr, Stop<Fault>>
    ensures below { (n : ℕ) → SignatureBelow n f.now → IfOk result (PartBelow n) }
    ensures puts { Puts (gives_meaning (Named f.now) at) result }
{
    let ty = plain(alloc, SemType::Atom(f.arrow));
    lift(sole(alloc, StrictForm::FunctionName { unit: f.unit }, ty, at))
}

/// What a module defines.
fn part_of_meaning(alloc: Global, meaning: &Meaning, at: Place) -> Result<TypedExpr, Stop<Fault>>
    ensures below { (n : ℕ) → MeaningBelow n meaning.now → IfOk result (PartBelow n) }
    ensures puts { Puts (gives_meaning meaning.now at) result }
{
    match meaning {
        Meaning::TypeName(_) => refused(FaultCode::Unknown, at),
        Meaning::Constant(t) => part_of_known(alloc, t, at),
        Meaning::Variable {
            number,
            is_final,
            ty,
        } => part_of_declared(alloc, *number, *is_final, ty, at),
        Meaning::Function(f) => part_of_function(alloc, f, at),
    }
}

/// The expression that a name is (Ballerina specification, "Variable reference expression").
///
/// - `Captured` at the place: it is a variable that is captured and assigned behind its declaration.
/// - `NameAsValue` there: it is a worker.
/// - `Unknown` there: it is a function of the library, or a type. Where it is nothing, why.
///
/// A type is copied where a module says it, which costs its size.
pub fn part_of_seen(alloc: Global, seen: Seen<'_, '_>, at: Place) -> Result<TypedExpr, Stop<Fault>>
    ensures below { (n : ℕ) → SeenBelow n (seen_of seen.entry) → IfOk result (PartBelow n) }
    ensures puts { Puts (gives_seen (seen_of seen.entry) at) result }
{
    match seen {
        Seen::Variable(v) => part_of_variable(v, at),
        Seen::Worker(_) => refused(FaultCode::NameAsValue, at),
        Seen::Constant(value) => part_of_constant(alloc, value, at),
        Seen::Library(_) => refused(FaultCode::Unknown, at),
        Seen::Meaning(meaning) => part_of_meaning(alloc, meaning, at),
        Seen::Nothing(code) => refused(code, at),
    }
}
