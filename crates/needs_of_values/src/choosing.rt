//! Values of which one is chosen.
#![tactic(auto, using(check_work::proofs::Noting::meeting))]

ghost use Rattle.std.specs.Prelude.{◌≡◌, ◌⊎◌, ◌∷◌, [], All, IfOk, OnOk, Ok as Given, length};
ghost use Rattle.checks.specs.Checks.{Comes};
ghost use Rattle.descriptors.specs.Described.{IsPlain};
ghost use Rattle.needs.specs.Needs.{Runs};
ghost use Rattle.operations.specs.Kinds.{IsNil};
ghost use Rattle.type_model.specs.Membership.{In};
ghost use Rattle.typed_tree.specs.Exprs.{type_of};
ghost use Rattle.typed_tree.specs.Listed.{one};
ghost use Rattle.typed_tree.specs.Views.{IsConditional, IsElvis};
ghost use Rattle.expr_needs.specs.Needs.{Chooses, FillsNil};
ghost use Rattle.check_words.specs.Meets.{meets};
ghost use Rattle.check_words.specs.Sharing.{SameShared};
ghost use Rattle.check_words.specs.Stands.{PartBelow, SharedBelow, Stands};
ghost use Rattle.check_words.specs.State.{AreLast};
ghost use Rattle.check_words.specs.Values.{chooses as chooses_of, fills_nil as fills_nil_of};
ghost use Rattle.check_words.specs.Words.{UnionOf, sem};
ghost use Rattle.check_work.specs.Views.{Holds, going, state_of};
ghost use Rattle.needs_of_values.specs.Parts.{HasSlotMore, MadeOfThree, MadeOfTwo, OfLastTwo};

use crate::shapes::shapes_of;
use bal_base::{Memory, Place};
use check_kinds::{instead_of_nil, union_of};
use check_words::{conditional, elvis};
use check_work::{
    Checker, Unit, Work, forget_choice, has_stopped, note_made, shared, take_three, take_two, taken,
};
use std::alloc::Global;
use std::rc::Rc;
use type_model::Types;
use typed_tree::{SharedTy, TypedExpr};

/// The last two parts.
fn last_two(found: &[TypedExpr]) -> Result<(&TypedExpr, &TypedExpr), Memory>
    ensures { IfOk result (λ p. AreLast found.now 2 (p.0.now ∷ p.1.now ∷ [])) }
{
    let count = found.len();
    if count < 2 {
        return Err(Memory);
    }
    Ok((&found[count - 2], &found[count - 1]))
}

/// The type of a value that is one of two.
fn type_of_one<T: Types>(
    alloc: Global,
    types: &mut T,
    a: &TypedExpr,
    b: &TypedExpr,
) -> Result<SharedTy, Memory>
    requires first { PartBelow (length (T.atoms types.old)) a.now }
    requires second { PartBelow (length (T.atoms types.old)) b.now }
    ensures atoms { T.atoms types.new ≡ T.atoms types.old }
    ensures below { IfOk result (SharedBelow (length (T.atoms types.old))) }
    ensures is { IfOk result (λ t. UnionOf (sem a.now) (sem b.now) (T.atoms types.old) t.value) }
{
    let left = shapes_of(a);
    let right = shapes_of(b);
    let both = union_of(alloc, types, left, right)?;
    Ok(Rc::new(alloc, both)?)
}

/// The type of the last two parts, one of which is the value.
fn type_of_choice<T: Types>(
    alloc: Global,
    types: &mut T,
    found: &[TypedExpr],
) -> Result<SharedTy, Memory>
    requires { All (PartBelow (length (T.atoms types.old))) found.now }
    ensures atoms { T.atoms types.new ≡ T.atoms types.old }
    ensures below { IfOk result (SharedBelow (length (T.atoms types.old))) }
    ensures is { IfOk result (λ t. OfLastTwo (λ a b. UnionOf (sem a) (sem b) (T.atoms types.old) t.value) found.now) }
{
    let (a, b) = last_two(found)?;
    let t = type_of_one(alloc, types, a, b)?;
    Ok(t)
}

/// The last three parts become a conditional expression of this type.
fn put_conditional(
    alloc: Global,
    found: &mut Vec<TypedExpr>,
    ty: SharedTy,
    at: Place,
) -> Result<(), Memory>
    ensures { OnOk result (MadeOfThree (λ c a b e. IsConditional c a b ty at e) found.old.items found.new.items) }
{
    let (condition, first, second) = take_three(found)?;
    let whole = conditional(alloc, condition, first, second, ty, at)?;
    found.push(whole)?;
    Ok(())
}

/// The last three parts become a conditional expression.
fn choose<T: Types>(
    alloc: Global,
    types: &mut T,
    work: &mut Work<'_>,
    at: Place,
) -> Result<(), Memory>
    requires { Stands (state_of (T.atoms types.old) work.old) }
    ensures atoms { T.atoms types.new ≡ T.atoms types.old }
    ensures stands { OnOk result (Stands (state_of (T.atoms types.old) work.new)) }
    ensures comes { OnOk result (Comes (chooses_of at) (state_of (T.atoms types.old) work.old) (Given tt) (state_of (T.atoms types.old) work.new)) }
{
    forget_choice(alloc, work)?;
    let ty = type_of_choice(alloc, types, work.found.as_slice())?;
    put_conditional(alloc, &mut work.found, ty, at)?;
    work.ways = None;
    Ok(())
}

/// The last three parts are a conditional expression (Ballerina specification, section 6.34), whose type is the union of the last two. It
/// costs a type that is written anew, and by the variables that are seen.
pub fn chooses<T: Types>(checker: &mut Checker<'_, T>, at: Place)
    requires { Holds (T.atoms checker.old.types) checker.old.names.now checker.old.work }
    ensures holds { Holds (T.atoms checker.new.types) checker.new.names.now checker.new.work }
    ensures names { checker.new.names.now ≡ checker.old.names.now }
    ensures met { Runs (meets T.passes checker.old.names.now) (one (Chooses at)) (going (T.atoms checker.old.types) checker.old.work) (going (T.atoms checker.new.types) checker.new.work) }
{
    if has_stopped(&checker.work) {
        return;
    }
    let made = choose(checker.alloc, &mut checker.types, &mut checker.work, at);
    note_made(&checker.types, &mut checker.work, made);
}

/// The type of a value in whose place another one stands where it is nil.
fn type_of_filled<T: Types>(
    alloc: Global,
    types: &mut T,
    a: &TypedExpr,
    b: &TypedExpr,
) -> Result<SharedTy, Memory>
    requires first { PartBelow (length (T.atoms types.old)) a.now }
    requires second { PartBelow (length (T.atoms types.old)) b.now }
    ensures atoms { T.atoms types.new ≡ T.atoms types.old }
    ensures below { IfOk result (SharedBelow (length (T.atoms types.old))) }
    ensures is { IfOk result (λ t. IsPlain (λ x. (In (T.atoms types.old) x (sem a.now) × ¬ IsNil x) ⊎ In (T.atoms types.old) x (sem b.now)) (T.atoms types.old) t.value) }
{
    let left = shapes_of(a);
    let right = shapes_of(b);
    let both = instead_of_nil(alloc, types, left, right)?;
    Ok(Rc::new(alloc, both)?)
}

/// The type of the last two parts, the second of which stands in the place of nil.
fn type_without_nil<T: Types>(
    alloc: Global,
    types: &mut T,
    found: &[TypedExpr],
) -> Result<SharedTy, Memory>
    requires { All (PartBelow (length (T.atoms types.old))) found.now }
    ensures atoms { T.atoms types.new ≡ T.atoms types.old }
    ensures below { IfOk result (SharedBelow (length (T.atoms types.old))) }
    ensures is { IfOk result (λ t. OfLastTwo (λ a b. IsPlain (λ x. (In (T.atoms types.old) x (sem a) × ¬ IsNil x) ⊎ In (T.atoms types.old) x (sem b)) (T.atoms types.old) t.value) found.now) }
{
    let (a, b) = last_two(found)?;
    let t = type_of_filled(alloc, types, a, b)?;
    Ok(t)
}

/// The type of the value that is kept: that of the first of the last two parts.
fn type_of_kept(found: &[TypedExpr]) -> Result<SharedTy, Memory>
    ensures { IfOk result (λ t. OfLastTwo (λ a b. SameShared (type_of a) t) found.now) }
{
    let (a, _b) = last_two(found)?;
    let t = shared(a.ty())?;
    Ok(t)
}

/// The last two parts become a value that is kept in the slot, and what stands in its place where it is nil.
fn put_elvis(
    alloc: Global,
    found: &mut Vec<TypedExpr>,
    own: u32,
    ty: SharedTy,
    at: Place,
) -> Result<(), Memory>
    ensures { OnOk result (MadeOfTwo (λ a b e. IsElvis own a b ty at e) found.old.items found.new.items) }
{
    let (left, right) = take_two(found)?;
    let whole = elvis(alloc, own, left, right, ty, at)?;
    found.push(whole)?;
    Ok(())
}

/// A slot more of the unit at hand; gives its number.
fn add_slot(unit: &mut Option<Unit>, ty: SharedTy) -> Result<u32, Memory>
    ensures { IfOk result (λ slot. HasSlotMore ty slot unit.old unit.new) }
{
    let mut own = taken(unit)?;
    let slot = own.new_slot(ty)?;
    *unit = Some(own);
    Ok(slot)
}

/// The last two parts become a value, and what stands in its place where it is nil.
fn fill_nil<T: Types>(
    alloc: Global,
    types: &mut T,
    work: &mut Work<'_>,
    at: Place,
) -> Result<(), Memory>
    requires { Stands (state_of (T.atoms types.old) work.old) }
    ensures atoms { T.atoms types.new ≡ T.atoms types.old }
    ensures stands { OnOk result (Stands (state_of (T.atoms types.old) work.new)) }
    ensures comes { OnOk result (Comes (fills_nil_of at) (state_of (T.atoms types.old) work.old) (Given tt) (state_of (T.atoms types.old) work.new)) }
{
    let kept = type_of_kept(work.found.as_slice())?;
    let ty = type_without_nil(alloc, types, work.found.as_slice())?;
    let own = add_slot(&mut work.unit, kept)?;
    put_elvis(alloc, &mut work.found, own, ty, at)?;
    work.ways = None;
    Ok(())
}

/// The last two parts are a value, and what stands in its place where it is nil (Ballerina specification, section 6.34). It costs a type
/// that is written anew.
pub fn fills_nil<T: Types>(checker: &mut Checker<'_, T>, at: Place)
    requires { Holds (T.atoms checker.old.types) checker.old.names.now checker.old.work }
    ensures holds { Holds (T.atoms checker.new.types) checker.new.names.now checker.new.work }
    ensures names { checker.new.names.now ≡ checker.old.names.now }
    ensures met { Runs (meets T.passes checker.old.names.now) (one (FillsNil at)) (going (T.atoms checker.old.types) checker.old.work) (going (T.atoms checker.new.types) checker.new.work) }
{
    if has_stopped(&checker.work) {
        return;
    }
    let made = fill_nil(checker.alloc, &mut checker.types, &mut checker.work, at);
    note_made(&checker.types, &mut checker.work, made);
}
