//! Expressions.
#![tactic(auto, using(crate::proofs::Forms::expr_forms))]

ghost use Rattle.std.specs.Prelude.{◌≡◌, false};
ghost use Rattle.std.specs.List.{list_all};
ghost use Rattle.bal_tree.specs.ExprRules.{make_conditional, expr_facts, expr_is_formed, postfix_is_formed, call_is_formed, primary_is_formed, key_is_formed, member_is_formed, detail_is_formed};

use super::types::{name_fits, params, type_tree};
use crate::expr::{Call, Detail, Expr, Key, Member, Postfix, Primary};
use crate::level::Level;

/// Whether the expression is well formed, in the middle of a conditional one or not.
#[cycle(exprs)]
pub fn expr(e: &Expr, middle: bool) -> bool
    ensures { result ≡ expr_is_formed e.now middle }
{
    match e {
        Expr::Postfix(e) => postfix(e, middle),
        Expr::Prefix { operand, .. } => {
            operand.level().is_no_looser(Level::Prefix) && expr(operand, middle)
        }
        Expr::Cast { ty, operand, .. } => {
            type_tree(ty, middle)
                && operand.level().is_no_looser(Level::Prefix)
                && expr(operand, middle)
        }
        Expr::Binary {
            left,
            op,
            right,
            ..
        } => { op.takes(left.level(), right.level()) && expr(left, middle) && expr(right, middle) }
        Expr::TypeTest { operand, ty, .. } => {
            operand.level().is_tighter(Level::Comparison)
                && type_tree(ty, middle)
                && expr(operand, middle)
        }
        Expr::Conditional {
            condition,
            middle: between,
            last,
            ..
        } => {
            is_conditional(condition, between, last)
                && expr(condition, middle)
                && expr(between, true)
                && expr(last, middle)
        }
        Expr::Trap { operand, .. } => expr(operand, middle),
        Expr::Function {
            params: taken,
            result,
            value,
            ..
        } => { params(taken) && type_tree(result, middle) && expr(value, middle) }
    }
}

/// Whether the three parts may stand in a conditional expression.
fn is_conditional(condition: &Expr, middle: &Expr, last: &Expr) -> bool
    ensures { result ≡ make_conditional (expr_facts condition.now) (expr_facts middle.now) (expr_facts last.now) }
{
    condition.level().is_tighter(Level::Conditional)
        && middle.level().is_no_looser(Level::Conditional)
        && last.level().is_no_looser(Level::Conditional)
        && !condition.ends_in_type()
        && !(middle.ends_in_int() && last.begins_with_word())
}

#[cycle(exprs)]
pub fn postfix(e: &Postfix, middle: bool) -> bool
    ensures { result ≡ postfix_is_formed e.now middle }
{
    match e {
        Postfix::Primary(e) => primary(e, middle),
        Postfix::Call(e) => call(e, middle),
        Postfix::Field { base, .. } => postfix(base, middle),
        Postfix::OptionalField { base, .. } => postfix(base, middle),
        Postfix::Index { base, index, .. } => postfix(base, middle) && expr(index, false),
    }
}

#[cycle(exprs)]
pub fn call(e: &Call, middle: bool) -> bool
    ensures { result ≡ call_is_formed e.now middle }
{
    match e {
        Call::Function { callee, args, .. } => {
            !callee.is_field() && postfix(callee, middle) && exprs(args)
        }
        Call::Method { receiver, args, .. } => postfix(receiver, middle) && exprs(args),
    }
}

#[cycle(exprs)]
fn primary(e: &Primary, middle: bool) -> bool
    ensures { result ≡ primary_is_formed e.now middle }
{
    match e {
        Primary::Literal(_) => true,
        Primary::Name(n) => name_fits(n, middle),
        Primary::Parens { inner, .. } => expr(inner, false),
        Primary::List { items, .. } => exprs(items),
        Primary::Mapping { members: ms, .. } => members(ms),
        Primary::Error {
            message,
            cause: None,
            details: ds,
            ..
        } => { expr(message, false) && details(ds) }
        Primary::Error {
            message,
            cause: Some(cause),
            details: ds,
            ..
        } => { expr(message, false) && expr(cause, false) && details(ds) }
    }
}

#[cycle(exprs)]
fn exprs(es: &[Expr]) -> bool
    ensures { result ≡ list_all (λ e. expr_is_formed e false) es.now }
{
    for e in es {
        if !expr(e, false) {
            return false;
        }
    }
    true
}

#[cycle(exprs)]
fn members(ms: &[Member]) -> bool
    ensures { result ≡ list_all (λ m. member_is_formed m false) ms.now }
{
    for m in ms {
        if !member(m) {
            return false;
        }
    }
    true
}

#[cycle(exprs)]
fn member(m: &Member) -> bool
    ensures { result ≡ member_is_formed m.now false }
{
    key(&m.key) && expr(&m.value, false)
}

#[cycle(exprs)]
fn key(k: &Key) -> bool
    ensures { result ≡ key_is_formed k.now false }
{
    match k {
        Key::Word(_) | Key::Str { .. } => true,
        Key::Computed { value, .. } => expr(value, false),
    }
}

#[cycle(exprs)]
fn details(ds: &[Detail]) -> bool
    ensures { result ≡ list_all (λ d. detail_is_formed d false) ds.now }
{
    for d in ds {
        if !detail(d) {
            return false;
        }
    }
    true
}

#[cycle(exprs)]
fn detail(d: &Detail) -> bool
    ensures { result ≡ detail_is_formed d.now false }
{
    expr(&d.value, false)
}
