//! Typed expressions, made of their parts: a call for each variant.
#![tactic(auto, using(typed_tree::proofs::ExprLayers::expr_layers))]

ghost use Rattle.std.specs.Prelude.{IfOk};
ghost use Rattle.typed_tree.specs.Views.{IsAnd, IsCheck, IsConditional, IsElvis, IsFunctionOf, IsImplied, IsLocal, IsOr, IsParens, IsStrict, IsTrap};

use bal_base::{Memory, Place};
use operations::Constant;
use std::alloc::Global;
use typed_tree::{AnonymousFunction, SharedTy, StrictForm, TypedExpr};

/// The operands from left to right, and then what the form says. Takes no memory.
pub fn strict(form: StrictForm, operands: Vec<TypedExpr>, ty: SharedTy, at: Place) -> TypedExpr
    ensures { IsStrict form operands.items ty at result }
{
    TypedExpr::Strict {
        form,
        operands,
        ty,
        at,
    }
}

/// A constant that stands for no expression. Takes no memory.
pub fn implied(value: Constant, ty: SharedTy, at: Place) -> TypedExpr
    ensures { IsImplied value ty at result }
{
    TypedExpr::Implied { value, ty, at }
}

/// A variable of the unit, and whether its type is a narrower one than that of its slot. Takes no memory.
pub fn local(slot: u32, narrowed: bool, ty: SharedTy, at: Place) -> TypedExpr
    ensures { IsLocal slot narrowed ty at result }
{
    TypedExpr::Local {
        slot,
        narrowed,
        ty,
        at,
    }
}

/// `left && right`
pub fn and(
    alloc: Global,
    left: TypedExpr,
    right: TypedExpr,
    ty: SharedTy,
    at: Place,
) -> Result<TypedExpr, Memory>
    ensures { IfOk result (IsAnd left right ty at) }
{
    let left = Box::new(alloc, left)?;
    let right = Box::new(alloc, right)?;
    Ok(TypedExpr::And {
        left,
        right,
        ty,
        at,
    })
}

/// `left || right`
pub fn or(
    alloc: Global,
    left: TypedExpr,
    right: TypedExpr,
    ty: SharedTy,
    at: Place,
) -> Result<TypedExpr, Memory>
    ensures { IfOk result (IsOr left right ty at) }
{
    let left = Box::new(alloc, left)?;
    let right = Box::new(alloc, right)?;
    Ok(TypedExpr::Or {
        left,
        right,
        ty,
        at,
    })
}

/// `condition ? middle : last`
pub fn conditional(
    alloc: Global,
    condition: TypedExpr,
    middle: TypedExpr,
    last: TypedExpr,
    ty: SharedTy,
    at: Place,
) -> Result<TypedExpr, Memory>
    ensures { IfOk result (IsConditional condition middle last ty at) }
{
    let condition = Box::new(alloc, condition)?;
    let middle = Box::new(alloc, middle)?;
    let last = Box::new(alloc, last)?;
    Ok(TypedExpr::Conditional {
        condition,
        middle,
        last,
        ty,
        at,
    })
}

/// `left ?: right`, which keeps the value of its left side in the slot `own`.
pub fn elvis(
    alloc: Global,
    own: u32,
    left: TypedExpr,
    right: TypedExpr,
    ty: SharedTy,
    at: Place,
) -> Result<TypedExpr, Memory>
    ensures { IfOk result (IsElvis own left right ty at) }
{
    let left = Box::new(alloc, left)?;
    let right = Box::new(alloc, right)?;
    Ok(TypedExpr::Elvis {
        own,
        left,
        right,
        ty,
        at,
    })
}

/// `check operand`, or `checkpanic operand` where it panics, which keeps the value in the slot `own`.
pub fn check(
    alloc: Global,
    panics: bool,
    own: u32,
    operand: TypedExpr,
    ty: SharedTy,
    at: Place,
) -> Result<TypedExpr, Memory>
    ensures { IfOk result (IsCheck panics own operand ty at) }
{
    let operand = Box::new(alloc, operand)?;
    Ok(TypedExpr::Check {
        panics,
        own,
        operand,
        ty,
        at,
    })
}

/// `trap operand`
pub fn trap(alloc: Global, operand: TypedExpr, ty: SharedTy, at: Place) -> Result<TypedExpr, Memory>
    ensures { IfOk result (IsTrap operand ty at) }
{
    let operand = Box::new(alloc, operand)?;
    Ok(TypedExpr::Trap { operand, ty, at })
}

/// An anonymous function with its value.
pub fn function(
    alloc: Global,
    function: AnonymousFunction,
    value: TypedExpr,
    ty: SharedTy,
    at: Place,
) -> Result<TypedExpr, Memory>
    ensures { IfOk result (IsFunctionOf function value ty at) }
{
    let function = Box::new(alloc, function)?;
    let value = Box::new(alloc, value)?;
    Ok(TypedExpr::Function {
        function,
        value,
        ty,
        at,
    })
}

/// `(inner)`
pub fn parens(alloc: Global, inner: TypedExpr, ty: SharedTy, at: Place) -> Result<TypedExpr, Memory>
    ensures { IfOk result (IsParens inner ty at) }
{
    let inner = Box::new(alloc, inner)?;
    Ok(TypedExpr::Parens { inner, ty, at })
}
