//! The names that expressions use.
#![tactic(auto, using(crate::proofs::Gathering::in_exprs))]

ghost use Rattle.std.specs.Prelude.{◌≡◌, IfOk, OnOk, map};
ghost use Rattle.typed_tree.specs.Listed.{joined, members as members_of, run};
ghost use Rattle.tree_places.specs.Gathered.{gather};
ghost use Rattle.tree_places.specs.UsedInExprs.{used_in_call, used_in_detail, used_in_expr, used_in_key, used_in_member, used_in_postfix, used_in_primary};

use crate::gathered::{WordList, gather_local};
use bal_base::Memory;
use bal_tree::{Call, Detail, Expr, Key, Member, Postfix, Primary, Word};
use std::alloc::Global;

/// The names without a prefix that the expression uses, with their places, in the order of the text, each as often as it stands there.
pub fn names_in_expr(alloc: Global, e: &Expr) -> Result<WordList, Memory>
    ensures { IfOk result (λ names. names ≡ members_of (used_in_expr e.now)) }
{
    let mut names = Vec::new(alloc);
    expr(&mut names, e)?;
    Ok(WordList::of(names))
}

#[cycle(exprs)]
pub(crate) fn expr(names: &mut Vec<Word>, e: &Expr) -> Result<(), Memory>
    ensures { OnOk result (names.new.items ≡ run gather (used_in_expr e.now) names.old.items) }
{
    match e {
        Expr::Postfix(e) => postfix(names, e),
        Expr::Prefix { operand, .. } | Expr::Cast { operand, .. } => expr(names, operand),
        Expr::TypeTest { operand, .. } | Expr::Trap { operand, .. } => expr(names, operand),
        Expr::Binary { left, right, .. } => {
            expr(names, left)?;
            expr(names, right)
        }
        Expr::Conditional {
            condition,
            middle,
            last,
            ..
        } => {
            expr(names, condition)?;
            expr(names, middle)?;
            expr(names, last)
        }
        Expr::Function { value, .. } => expr(names, value),
    }
}

#[cycle(exprs)]
pub(crate) fn postfix(names: &mut Vec<Word>, e: &Postfix) -> Result<(), Memory>
    ensures { OnOk result (names.new.items ≡ run gather (used_in_postfix e.now) names.old.items) }
{
    match e {
        Postfix::Primary(e) => primary(names, e),
        Postfix::Call(e) => call(names, e),
        Postfix::Field { base, .. } | Postfix::OptionalField { base, .. } => postfix(names, base),
        Postfix::Index { base, index, .. } => {
            postfix(names, base)?;
            expr(names, index)
        }
    }
}

#[cycle(exprs)]
pub(crate) fn call(names: &mut Vec<Word>, e: &Call) -> Result<(), Memory>
    ensures { OnOk result (names.new.items ≡ run gather (used_in_call e.now) names.old.items) }
{
    match e {
        Call::Function { callee, args, .. } => {
            postfix(names, callee)?;
            exprs(names, args)
        }
        Call::Method { receiver, args, .. } => {
            postfix(names, receiver)?;
            exprs(names, args)
        }
    }
}

#[cycle(exprs)]
fn primary(names: &mut Vec<Word>, e: &Primary) -> Result<(), Memory>
    ensures { OnOk result (names.new.items ≡ run gather (used_in_primary e.now) names.old.items) }
{
    match e {
        Primary::Literal(_) => Ok(()),
        Primary::Name(n) => gather_local(names, n),
        Primary::Parens { inner, .. } => expr(names, inner),
        Primary::List { items, .. } => exprs(names, items),
        Primary::Mapping { members: ms, .. } => members(names, ms),
        Primary::Error {
            message,
            cause: None,
            details: ds,
            ..
        } => {
            expr(names, message)?;
            details(names, ds)
        }
        Primary::Error {
            message,
            cause: Some(cause),
            details: ds,
            ..
        } => {
            expr(names, message)?;
            expr(names, cause)?;
            details(names, ds)
        }
    }
}

#[cycle(exprs)]
fn key(names: &mut Vec<Word>, k: &Key) -> Result<(), Memory>
    ensures { OnOk result (names.new.items ≡ run gather (used_in_key k.now) names.old.items) }
{
    match k {
        Key::Word(_) | Key::Str { .. } => Ok(()),
        Key::Computed { value, .. } => expr(names, value),
    }
}

#[cycle(exprs)]
fn member(names: &mut Vec<Word>, m: &Member) -> Result<(), Memory>
    ensures { OnOk result (names.new.items ≡ run gather (used_in_member m.now) names.old.items) }
{
    key(names, &m.key)?;
    expr(names, &m.value)
}

#[cycle(exprs)]
fn detail(names: &mut Vec<Word>, d: &Detail) -> Result<(), Memory>
    ensures { OnOk result (names.new.items ≡ run gather (used_in_detail d.now) names.old.items) }
{
    expr(names, &d.value)
}

#[cycle(exprs)]
fn exprs(names: &mut Vec<Word>, es: &[Expr]) -> Result<(), Memory>
    ensures { OnOk result (names.new.items ≡ run gather (joined (map used_in_expr es.now)) names.old.items) }
{
    for e in es {
        expr(names, e)?;
    }
    Ok(())
}

#[cycle(exprs)]
fn members(names: &mut Vec<Word>, ms: &[Member]) -> Result<(), Memory>
    ensures { OnOk result (names.new.items ≡ run gather (joined (map used_in_member ms.now)) names.old.items) }
{
    for m in ms {
        member(names, m)?;
    }
    Ok(())
}

#[cycle(exprs)]
fn details(names: &mut Vec<Word>, ds: &[Detail]) -> Result<(), Memory>
    ensures { OnOk result (names.new.items ≡ run gather (joined (map used_in_detail ds.now)) names.old.items) }
{
    for d in ds {
        detail(names, d)?;
    }
    Ok(())
}
