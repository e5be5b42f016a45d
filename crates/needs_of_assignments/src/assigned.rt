//! What names stand for that are assigned.
#![tactic(auto, using(crate::proofs::Wanting::wanting))]

ghost use Rattle.std.specs.Prelude.{◌≡◌, ◌&&◌, ℕ, IfOk, List, None, OnOk, Ok as Given, Some as There};
ghost use Rattle.bal_base.specs.declared.fault.FaultCode.TheVariants.{AssignFinal};
ghost use Rattle.checks.specs.Checks.{Comes, either, ◌▷◌};
ghost use Rattle.descriptors.specs.Described.{IsCopy};
ghost use Rattle.descriptors.specs.Steps.{MeaningBelow};
ghost use Rattle.flow_narrowing.specs.Flows.{VariableBelow};
ghost use Rattle.type_model.specs.Defined.{TyBelow};
ghost use Rattle.type_model.specs.declared.atoms.AtomDef.{AtomDef as Atom};
ghost use Rattle.check_words.specs.Seen.{SeenMeaning as Defined};
ghost use Rattle.check_words.specs.Stands.{SharedBelow, Stands};
ghost use Rattle.check_words.specs.State.{with_type};
ghost use Rattle.check_words.specs.Statements.{assigned_by, meaning_assignable, seen_assignable, variable_assignable};
ghost use Rattle.check_words.specs.Statements.{Assigned as AssignedWords};
ghost use Rattle.check_words.specs.Values.{uses};
ghost use Rattle.check_words.specs.Words.{changes_flow, fails as fails_of, wants as wants_of, wants_some};
ghost use Rattle.check_work.specs.Views.{state_of};
ghost use Rattle.seen_names.specs.Given.{SeenBelow};
ghost use Rattle.seen_names.specs.Views.{seen_of};
ghost use Rattle.needs_of_assignments.specs.Assigning.{IsAssignedAs, IsAssignment, IsHeld, IsReadAs, Wants, forgets, target_of};

use crate::stmts;
use bal_base::{Fault, FaultCode, Kept, Memory, Name, Place, Stop};
use bal_tree::QualifiedName;
use check_work::{Work, at_hand, shared, taken};
use descriptors::{Meaning, Names, copy, lift};
use flow_narrowing::Variable;
use seen_names::{Seen, seen_as, shared_now};
use std::alloc::Global;
use std::rc::Rc;
use type_model::Ty;
use typed_tree::{SharedTy, TypedExpr, TypedStmt, UpdateTarget};

// ---- whether it may be assigned

/// It may not be.
fn refused(code: FaultCode, at: Place) -> Result<SharedTy, Stop<Fault>>
    ensures below { (n : ℕ) → IfOk result (SharedBelow n) }
    ensures wants { Wants (fails_of code at) result }
{
    Err(Stop::Fault(Fault {
        code,
        at: Some(at),
        kept: Kept::Nothing,
    }))
}

/// Whether it is final, a parameter, or that of a loop.
fn is_fixed(v: &Variable) -> bool
    ensures { result ≡ v.now.fixed }
{
    v.fixed
}

/// A captured variable that is assigned behind its declaration: it may not be used.
fn is_lost(v: &Variable) -> bool
    ensures { result ≡ (v.now.captured && v.now.assigned) }
{
    v.captured && v.assigned
}

/// The declared type of a variable that isn't fixed.
fn type_used(v: &Variable, at: Place) -> Result<SharedTy, Stop<Fault>>
    ensures below { (n : ℕ) → VariableBelow n v.now → IfOk result (SharedBelow n) }
    ensures wants { Wants (uses v.now at ▷ λ u. wants_of (There v.now.declared)) result }
{
    if is_lost(v) {
        return refused(FaultCode::Captured, at);
    }
    lift(shared(&v.declared))
}

/// The declared type of a variable.
fn type_of_variable(v: &Variable, at: Place) -> Result<SharedTy, Stop<Fault>>
    ensures below { (n : ℕ) → VariableBelow n v.now → IfOk result (SharedBelow n) }
    ensures wants { Wants (variable_assignable v.now at) result }
{
    if is_fixed(v) {
        return refused(FaultCode::AssignFinal, at);
    }
    type_used(v, at)
}

/// A copy of the type that a module says.
fn copied(alloc: Global, t: &Ty) -> Result<SharedTy, Memory>
    ensures below { (n : ℕ) → TyBelow n t.now → IfOk result (SharedBelow n) }
    ensures copy { IfOk result (λ u. IsCopy t.now u.value) }
{
    Ok(Rc::new(alloc, copy(alloc, t)?)?)
}

/// The type of a variable of a module.
fn type_of_declared(
    alloc: Global,
    is_final: bool,
    t: &Ty,
    at: Place,
) -> Result<SharedTy, Stop<Fault>>
    ensures below { (n : ℕ) → TyBelow n t.now → IfOk result (SharedBelow n) }
    ensures wants { Wants (either is_final (fails_of AssignFinal at) (wants_some (λ env. IsCopy t.now))) result }
{
    if is_final {
        return refused(FaultCode::AssignFinal, at);
    }
    lift(copied(alloc, t))
}

/// The type of what a module defines.
fn type_of_meaning(alloc: Global, meaning: &Meaning, at: Place) -> Result<SharedTy, Stop<Fault>>
    ensures below { (n : ℕ) → MeaningBelow n meaning.now → IfOk result (SharedBelow n) }
    ensures wants { Wants (meaning_assignable meaning.now at) result }
{
    match meaning {
        Meaning::TypeName(_) => refused(FaultCode::Unknown, at),
        Meaning::Constant(_) => refused(FaultCode::AssignFinal, at),
        Meaning::Variable {
            number: _,
            is_final,
            ty,
        } => type_of_declared(alloc, *is_final, ty, at),
        Meaning::Function(_) => refused(FaultCode::AssignFinal, at),
    }
}

/// The declared type of what the name stands for, if that may be assigned.
///
/// - `AssignFinal` at the place: it is a final variable, a parameter, the variable of a loop, a constant or a function.
/// - `Captured` there: it is a variable that is captured and assigned behind its declaration.
/// - `NameAsValue` there: it is a worker.
/// - `Unknown` there: it is a type, or a function of the library. Where it is nothing, why.
///
/// A type is copied where a module says it, which costs its size.
pub(crate) fn assignable_type(
    alloc: Global,
    seen: Seen<'_, '_>,
    at: Place,
) -> Result<SharedTy, Stop<Fault>>
    ensures below { (n : ℕ) → SeenBelow n (seen_of seen.entry) → IfOk result (SharedBelow n) }
    ensures wants { Wants (seen_assignable (seen_of seen.entry) at) result }
{
    match seen {
        Seen::Variable(v) => type_of_variable(v, at),
        Seen::Worker(_) => refused(FaultCode::NameAsValue, at),
        Seen::Constant(_) => refused(FaultCode::AssignFinal, at),
        Seen::Library(_) => refused(FaultCode::Unknown, at),
        Seen::Meaning(meaning) => type_of_meaning(alloc, meaning, at),
        Seen::Nothing(code) => refused(code, at),
    }
}

// ---- what is read of it

/// What is read of what a module defines.
fn read_of_meaning(alloc: Global, meaning: &Meaning) -> Result<SharedTy, Memory>
    ensures below { (n : ℕ) → MeaningBelow n meaning.now → IfOk result (SharedBelow n) }
    ensures is { IfOk result (IsReadAs (Defined meaning.now)) }
{
    match meaning {
        Meaning::Variable {
            number: _,
            is_final: _,
            ty,
        } => copied(alloc, ty),
        Meaning::TypeName(_) | Meaning::Constant(_) | Meaning::Function(_) => Err(Memory),
    }
}

/// The type of what is read of what the name stands for. Where that can't be assigned it is as if memory were wanted.
pub(crate) fn read_type(alloc: Global, seen: Seen<'_, '_>) -> Result<SharedTy, Memory>
    ensures below { (n : ℕ) → SeenBelow n (seen_of seen.entry) → IfOk result (SharedBelow n) }
    ensures is { IfOk result (IsReadAs (seen_of seen.entry)) }
{
    match seen {
        Seen::Variable(v) => shared_now(v),
        Seen::Meaning(meaning) => read_of_meaning(alloc, meaning),
        Seen::Worker(_) | Seen::Constant(_) | Seen::Library(_) | Seen::Nothing(_) => Err(Memory),
    }
}

// ---- where it is put

/// What a name stands for that is assigned.
#[derive(Drop)]
pub(crate) enum Assigned {
    /// A variable of the unit: its name and its slot, and whether it has a narrower type here than that of the slot.
    Variable {
        name: Name,
        slot: u32,
        narrowed: bool,
    },
    /// A variable of a module, by its number.
    Module(u32),
}

/// What a module defines, where it is a variable.
fn defined(meaning: &Meaning) -> Result<Assigned, Memory>
    ensures { IfOk result (IsAssignedAs (Defined meaning.now)) }
{
    match meaning {
        Meaning::Variable {
            number,
            is_final: _,
            ty: _,
        } => Ok(Assigned::Module(*number)),
        Meaning::TypeName(_) | Meaning::Constant(_) | Meaning::Function(_) => Err(Memory),
    }
}

/// What is assigned where the name stands for this.
fn held(seen: Seen<'_, '_>) -> Result<Assigned, Memory>
    ensures { IfOk result (IsAssignedAs (seen_of seen.entry)) }
{
    match seen {
        Seen::Variable(v) => Ok(Assigned::Variable {
            name: v.name.share(),
            slot: v.slot,
            narrowed: v.narrowed.is_some(),
        }),
        Seen::Meaning(meaning) => defined(meaning),
        Seen::Worker(_) | Seen::Constant(_) | Seen::Library(_) | Seen::Nothing(_) => Err(Memory),
    }
}

/// What is assigned by the name. Where it stands for nothing that can be, or no unit is at hand, it is as if memory were
/// wanted.
pub(crate) fn target(
    names: &Names,
    work: &Work<'_>,
    name: &QualifiedName,
) -> Result<Assigned, Memory>
    ensures { (env : List Atom) → IfOk result (λ held. (a : AssignedWords) × IsHeld a held × Comes (assigned_by names.now name.now) (state_of env work.now) (Given a) (state_of env work.now)) }
{
    let unit = at_hand(&work.unit)?;
    let variables = unit.here.variables.as_slice();
    held(seen_as(names, &work.site, variables, name))
}

/// Where it is a variable of the unit it has its declared type from now on.
pub(crate) fn forget(work: &mut Work<'_>, what: &Assigned) -> Result<(), Memory>
    ensures stands { (env : List Atom) → Stands (state_of env work.old) → OnOk result (Stands (state_of env work.new)) }
    ensures comes { (env : List Atom) → OnOk result (Comes (forgets what.now) (state_of env work.old) (Given tt) (state_of env work.new)) }
{
    match what {
        Assigned::Variable {
            name,
            slot: _,
            narrowed: _,
        } => forget_name(work, name),
        Assigned::Module(_) => Ok(()),
    }
}

/// The variable with the name has its declared type from now on.
fn forget_name(work: &mut Work<'_>, name: &Name) -> Result<(), Memory>
    ensures stands { (env : List Atom) → Stands (state_of env work.old) → OnOk result (Stands (state_of env work.new)) }
    ensures comes { (env : List Atom) → OnOk result (Comes (changes_flow (with_type name.now None)) (state_of env work.old) (Given tt) (state_of env work.new)) }
{
    let mut unit = taken(&mut work.unit)?;
    unit.here.retype(name, None);
    work.ways = None;
    work.unit = Some(unit);
    Ok(())
}

/// The statement that assigns the value to it.
pub(crate) fn assignment(
    alloc: Global,
    what: &Assigned,
    value: Box<TypedExpr>,
    at: Place,
) -> Result<TypedStmt, Memory>
    ensures { IfOk result (IsAssignment what.now value.value at) }
{
    match what {
        Assigned::Variable {
            name: _,
            slot,
            narrowed: _,
        } => Ok(stmts::set(*slot, value, at)),
        Assigned::Module(number) => stmts::set_variable(alloc, *number, value, at),
    }
}

/// It, as what a statement with an operator assigns to, where this was read of it.
pub(crate) fn update_target(what: Assigned, read: SharedTy) -> UpdateTarget
    ensures { result ≡ target_of what read }
{
    match what {
        Assigned::Variable {
            name: _,
            slot,
            narrowed,
        } => UpdateTarget::Local {
            slot,
            narrowed,
            ty: read,
        },
        Assigned::Module(number) => UpdateTarget::Variable(number),
    }
}
