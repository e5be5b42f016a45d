//! Parts that wait for their construct: the last ones are taken, and become one.
#![tactic(auto, using(crate::proofs::Taking::taking))]

ghost use Rattle.std.specs.Prelude.{◌≡◌, ◌≤◌, ◌++◌, ◌∷◌, [], IfOk, IfSome, OnOk, Some as There, length};
ghost use Rattle.std.specs.Option.{option_copied};
ghost use Rattle.check_words.specs.State.{AreLast, IsLast, all_but};
ghost use Rattle.check_work.specs.Parts.{Gathered};

use bal_base::{Memory, Place};
use std::mem;
use typed_tree::{SharedTy, StrictForm, TypedExpr};

/// The last one, if there is one.
pub fn last<T>(items: &[T]) -> Option<&T>
    ensures { IfSome (option_copied result) (IsLast items.now) }
{
    match items {
        [.., item] => Some(item),
        [] => None,
    }
}

/// What is there is taken.
pub fn taken<T>(what: &mut Option<T>) -> Result<T, Memory>
    ensures { IfOk result (λ x. what.old ≡ There x) }
{
    match mem::replace(what, None) {
        Some(x) => Ok(x),
        None => Err(Memory),
    }
}

/// The last one is taken.
pub fn last_taken<T>(items: &mut Vec<T>) -> Result<T, Memory>
    ensures { IfOk result (λ x. items.old.items ≡ items.new.items ++ x ∷ []) }
{
    match items.pop() {
        Some(item) => Ok(item),
        None => Err(Memory),
    }
}

/// The last one goes, if there is one.
pub fn drop_last<T: Drop>(items: &mut Vec<T>)
    ensures { items.new.items ≡ all_but 1 items.old.items }
{
    items.pop();
}

/// So many of the last parts, in order, are taken. Where there are fewer it is as if memory were wanted, and they stay.
pub fn take_parts(found: &mut Vec<TypedExpr>, count: usize) -> Result<Vec<TypedExpr>, Memory>
    ensures parts { IfOk result (λ parts. AreLast found.old.items count parts.items) }
    ensures kept { OnOk result (found.new.items ≡ all_but count found.old.items) }
{
    if found.len() < count {
        return Err(Memory);
    }
    let kept = found.len() - count;
    Ok(found.split_off(kept)?)
}

/// The last one, which is there, is taken.
fn popped<T>(items: &mut Vec<T>) -> T
    requires { 1 ≤ length items.old.items }
    ensures { items.old.items ≡ items.new.items ++ result ∷ [] }
{
    match items.pop() {
        Some(item) => item,
        None => unreachable!(),
    }
}

/// The last part is taken.
pub fn take_one(found: &mut Vec<TypedExpr>) -> Result<TypedExpr, Memory>
    ensures part { IfOk result (λ a. AreLast found.old.items 1 (a ∷ [])) }
    ensures kept { OnOk result (found.new.items ≡ all_but 1 found.old.items) }
{
    if found.len() < 1 {
        return Err(Memory);
    }
    let a = popped(found);
    Ok(a)
}

/// The last two parts are taken, the first one first.
pub fn take_two(found: &mut Vec<TypedExpr>) -> Result<(TypedExpr, TypedExpr), Memory>
    ensures parts { IfOk result (λ p. AreLast found.old.items 2 (p.0 ∷ p.1 ∷ [])) }
    ensures kept { OnOk result (found.new.items ≡ all_but 2 found.old.items) }
{
    if found.len() < 2 {
        return Err(Memory);
    }
    let b = popped(found);
    let a = popped(found);
    Ok((a, b))
}

/// The last three parts are taken, the first one first.
pub fn take_three(found: &mut Vec<TypedExpr>) -> Result<(TypedExpr, TypedExpr, TypedExpr), Memory>
    ensures parts { IfOk result (λ p. AreLast found.old.items 3 (p.0 ∷ p.1 ∷ p.2 ∷ [])) }
    ensures kept { OnOk result (found.new.items ≡ all_but 3 found.old.items) }
{
    if found.len() < 3 {
        return Err(Memory);
    }
    let c = popped(found);
    let b = popped(found);
    let a = popped(found);
    Ok((a, b, c))
}

/// So many of the last parts become the operands of one expression of this form and type.
pub fn gather(
    found: &mut Vec<TypedExpr>,
    form: StrictForm,
    count: usize,
    ty: SharedTy,
    at: Place,
) -> Result<(), Memory>
    ensures { OnOk result (Gathered form count ty at found.old.items found.new.items) }
{
    let operands = take_parts(found, count)?;
    found.push(check_words::strict(form, operands, ty, at))?;
    Ok(())
}
