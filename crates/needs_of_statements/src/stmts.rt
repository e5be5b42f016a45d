//! Typed statements, made of their parts: a call for each variant that a need here makes.
#![tactic(auto, using(typed_tree::proofs::StmtLayers::stmt_layers))]

ghost use Rattle.std.specs.Prelude.{IfOk};
ghost use Rattle.check_words.specs.StmtViews.{IsBlock, IsIf, IsReturn, IsReturnNil, IsWhile};

use bal_base::{Memory, Place};
use std::alloc::Global;
use typed_tree::{TypedExpr, TypedStmt};

/// `return value;`
pub(crate) fn return_value(alloc: Global, value: TypedExpr, at: Place) -> Result<TypedStmt, Memory>
    ensures { IfOk result (IsReturn value at) }
{
    let value = Box::new(alloc, value)?;
    Ok(TypedStmt::Return {
        value: Some(value),
        at,
    })
}

/// `return;`
pub(crate) fn return_nothing(at: Place) -> TypedStmt
    ensures { IsReturnNil at result }
{
    TypedStmt::Return { value: None, at }
}

/// `{ .. }`
pub(crate) fn block_stmt(stmts: Vec<TypedStmt>, at: Place) -> TypedStmt
    ensures { IsBlock stmts.items at result }
{
    TypedStmt::Block { stmts, at }
}

/// `if condition { .. } else { .. }`
pub(crate) fn branch(
    alloc: Global,
    condition: TypedExpr,
    first: Vec<TypedStmt>,
    second: Vec<TypedStmt>,
    at: Place,
) -> Result<TypedStmt, Memory>
    ensures { IfOk result (IsIf condition first.items second.items at) }
{
    let condition = Box::new(alloc, condition)?;
    Ok(TypedStmt::If {
        condition,
        first,
        second,
        at,
    })
}

/// `while condition { .. }`
pub(crate) fn while_loop(
    alloc: Global,
    condition: TypedExpr,
    body: Vec<TypedStmt>,
    at: Place,
) -> Result<TypedStmt, Memory>
    ensures { IfOk result (IsWhile condition body.items at) }
{
    let condition = Box::new(alloc, condition)?;
    Ok(TypedStmt::While {
        condition,
        body,
        at,
    })
}
