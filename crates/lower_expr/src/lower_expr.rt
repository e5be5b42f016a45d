//! What expressions and actions add to code that is being made.
#![tactic(auto, using(crate::proofs::Drafting::drafting, typed_tree::proofs::ExprLayers::expr_layers))]

ghost use Rattle.std.specs.Prelude.{◌≡◌, ◌∷◌, [], OnOk};
ghost use Rattle.operations.specs.declared.operation.Operation.TheVariants.{Load, Store, Test};
ghost use Rattle.typed_tree.specs.SharedTypes.{sem_of};
ghost use Rattle.held_operations.specs.Operation.{operation_of, type_of};
ghost use Rattle.eval_model.specs.Expressions.{check_ends, error_type, makes_function, narrowed_to as narrowed_to_of};
ghost use Rattle.lower_model.specs.Making.{all_do, captures_made, does, expr_made, exprs_made, gets as gets_made, keeps as keeps_made};
ghost use Rattle.lower_expr.specs.Drafts.{making_of};

use crate::constructs::strict;
use crate::draft::Draft;
use bal_base::Memory;
use held_operations::{Op, TestedType};
use typed_tree::{AnonymousFunction, Captured, SharedTy, TypedExpr};

/// A local variable is loaded, which here may be of a narrower type.
pub fn gets<'a>(
    draft: &mut Draft<'a>,
    slot: u32,
    narrowed: bool,
    ty: &'a SharedTy,
) -> Result<(), Memory>
    ensures { OnOk result (making_of draft.new ≡ gets_made slot (narrowed_to_of narrowed ty.now) (making_of draft.old)) }
{
    draft.does(Op::Load(slot as u64))?;
    if narrowed {
        draft.casts(TestedType::Tree(ty))?;
    }
    Ok(())
}

/// Captured variables are loaded, each as what it is narrowed to.
fn captures<'a>(draft: &mut Draft<'a>, captured: &'a [Captured]) -> Result<(), Memory>
    ensures { OnOk result (making_of draft.new ≡ captures_made captured.now (making_of draft.old)) }
{
    for c in captured {
        gets(draft, c.slot, c.narrowed, &c.ty)?;
    }
    Ok(())
}

/// The operation that makes the function value.
fn made<'a>(f: &AnonymousFunction) -> Op<'a>
    ensures { operation_of result ≡ makes_function f.now }
{
    Op::MakeFunction {
        unit: f.unit.number,
        count: f.captured.as_slice().len() as u64,
    }
}

/// A function value with what it captures.
fn function<'a>(draft: &mut Draft<'a>, f: &'a AnonymousFunction) -> Result<(), Memory>
    ensures { OnOk result (making_of draft.new ≡ does (makes_function f.now) (captures_made f.now.captured (making_of draft.old))) }
{
    captures(draft, f.captured.as_slice())?;
    draft.does(made(f))
}

/// What an error ends: `checkpanic` panics with it, and `check` returns it.
fn ending<'a>(panics: bool) -> Op<'a>
    ensures { operation_of result ≡ check_ends panics }
{
    if panics { Op::Panic } else { Op::Return }
}

/// A value is kept in a slot, and tested for a type.
fn kept<'a>(draft: &mut Draft<'a>, own: u32, ty: TestedType<'a>) -> Result<(), Memory>
    ensures { OnOk result (making_of draft.new ≡ all_do (Store own ∷ Load own ∷ Test (type_of ty.entry) ∷ []) (making_of draft.old)) }
{
    let slot = own as u64;
    draft.dos(&[Op::Store(slot), Op::Load(slot), Op::Test(ty)])
}

/// What a slot keeps is given, which here is of this type.
fn kept_as<'a>(draft: &mut Draft<'a>, own: u32, ty: &'a SharedTy) -> Result<(), Memory>
    ensures { OnOk result (making_of draft.new ≡ keeps_made own (sem_of ty.now) [] (making_of draft.old)) }
{
    draft.does(Op::Load(own as u64))?;
    draft.casts(TestedType::Tree(ty))
}

/// The error that a slot keeps ends the unit, or panics.
fn error_kept<'a>(draft: &mut Draft<'a>, own: u32, panics: bool) -> Result<(), Memory>
    ensures { OnOk result (making_of draft.new ≡ keeps_made own error_type (check_ends panics ∷ []) (making_of draft.old)) }
{
    draft.does(Op::Load(own as u64))?;
    draft.casts(TestedType::Error)?;
    draft.does(ending(panics))
}

/// What an expression adds, in time that grows with the nodes of the tree. It answers want of memory alone.
#[cycle(expr)]
pub fn expr<'a>(draft: &mut Draft<'a>, e: &'a TypedExpr) -> Result<(), Memory>
    ensures { OnOk result (making_of draft.new ≡ expr_made e.now (making_of draft.old)) }
{
    match e {
        TypedExpr::Strict { form, operands, .. } => {
            exprs(draft, operands)?;
            strict(draft, form, operands.len() as u64)
        }
        TypedExpr::Implied { value, .. } => draft.does(Op::Const(value)),
        TypedExpr::Local {
            slot,
            narrowed,
            ty,
            ..
        } => gets(draft, *slot, *narrowed, ty),
        TypedExpr::And { left, right, .. } => {
            expr(draft, left)?;
            let ways = draft.part()?;
            expr(draft, right)?;
            draft.otherwise(ways)?;
            draft.does(Op::Truth(false))?;
            draft.join(ways);
            Ok(())
        }
        TypedExpr::Or { left, right, .. } => {
            expr(draft, left)?;
            let ways = draft.part()?;
            draft.does(Op::Truth(true))?;
            draft.otherwise(ways)?;
            expr(draft, right)?;
            draft.join(ways);
            Ok(())
        }
        TypedExpr::Conditional {
            condition,
            middle,
            last,
            ..
        } => {
            expr(draft, condition)?;
            let ways = draft.part()?;
            expr(draft, middle)?;
            draft.otherwise(ways)?;
            expr(draft, last)?;
            draft.join(ways);
            Ok(())
        }
        TypedExpr::Elvis {
            own,
            left,
            right,
            ty,
            ..
        } => {
            expr(draft, left)?;
            kept(draft, *own, TestedType::Nil)?;
            let ways = draft.part()?;
            expr(draft, right)?;
            draft.otherwise(ways)?;
            kept_as(draft, *own, ty)?;
            draft.join(ways);
            Ok(())
        }
        TypedExpr::Check {
            panics,
            own,
            operand,
            ty,
            ..
        } => {
            expr(draft, operand)?;
            kept(draft, *own, TestedType::Error)?;
            let ways = draft.part()?;
            error_kept(draft, *own, *panics)?;
            draft.otherwise(ways)?;
            kept_as(draft, *own, ty)?;
            draft.join(ways);
            Ok(())
        }
        TypedExpr::Trap { operand, .. } => {
            let ways = draft.open_trap()?;
            expr(draft, operand)?;
            draft.close_trap(ways)
        }
        TypedExpr::Function { function: f, .. } => function(draft, f),
        TypedExpr::Parens { inner, .. } => expr(draft, inner),
    }
}

/// What expressions add, one behind another.
#[cycle(expr)]
pub fn exprs<'a>(draft: &mut Draft<'a>, es: &'a [TypedExpr]) -> Result<(), Memory>
    ensures { OnOk result (making_of draft.new ≡ exprs_made es.now (making_of draft.old)) }
{
    for e in es {
        expr(draft, e)?;
    }
    Ok(())
}
