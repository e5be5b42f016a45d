//! Expressions: whether no `check` in them may end the body that they stand in.
#![tactic(auto, using(bal_tree::proofs::Forms::expr_forms))]

ghost use Rattle.std.specs.Prelude.{◌≡◌};
ghost use Rattle.std.specs.List.{list_all};
ghost use Rattle.typed_tree.specs.Checking.{call_keeps_on, detail_keeps_on, expr_keeps_on, key_keeps_on, member_keeps_on, op_keeps_on, postfix_keeps_on, primary_keeps_on};

use bal_tree::{Call, Detail, Expr, Key, Member, Postfix, PrefixOp, Primary};

#[cycle(exprs)]
pub fn expr(e: &Expr) -> bool
    ensures { result ≡ expr_keeps_on e.now }
{
    match e {
        Expr::Postfix(e) => postfix(e),
        Expr::Prefix { op, operand, .. } => keeps_on(*op) && expr(operand),
        Expr::Cast { operand, .. } => expr(operand),
        Expr::Binary { left, right, .. } => expr(left) && expr(right),
        Expr::TypeTest { operand, .. } => expr(operand),
        Expr::Conditional {
            condition,
            middle,
            last,
            ..
        } => expr(condition) && expr(middle) && expr(last),
        Expr::Trap { operand, .. } => expr(operand),
        Expr::Function { .. } => true,
    }
}

fn keeps_on(op: PrefixOp) -> bool
    ensures { result ≡ op_keeps_on op }
{
    match op {
        PrefixOp::Check => false,
        PrefixOp::Negate | PrefixOp::Not | PrefixOp::CheckPanic => true,
    }
}

#[cycle(exprs)]
pub fn postfix(e: &Postfix) -> bool
    ensures { result ≡ postfix_keeps_on e.now }
{
    match e {
        Postfix::Primary(e) => primary(e),
        Postfix::Call(e) => call(e),
        Postfix::Field { base, .. } | Postfix::OptionalField { base, .. } => postfix(base),
        Postfix::Index { base, index, .. } => postfix(base) && expr(index),
    }
}

#[cycle(exprs)]
pub fn call(e: &Call) -> bool
    ensures { result ≡ call_keeps_on e.now }
{
    match e {
        Call::Function { callee, args, .. } => postfix(callee) && exprs(args),
        Call::Method { receiver, args, .. } => postfix(receiver) && exprs(args),
    }
}

#[cycle(exprs)]
fn primary(e: &Primary) -> bool
    ensures { result ≡ primary_keeps_on e.now }
{
    match e {
        Primary::Literal(_) | Primary::Name(_) => true,
        Primary::Parens { inner, .. } => expr(inner),
        Primary::List { items, .. } => exprs(items),
        Primary::Mapping { members: ms, .. } => members(ms),
        Primary::Error {
            message,
            cause: None,
            details: ds,
            ..
        } => expr(message) && details(ds),
        Primary::Error {
            message,
            cause: Some(cause),
            details: ds,
            ..
        } => expr(message) && expr(cause) && details(ds),
    }
}

#[cycle(exprs)]
fn key(k: &Key) -> bool
    ensures { result ≡ key_keeps_on k.now }
{
    match k {
        Key::Word(_) | Key::Str { .. } => true,
        Key::Computed { value, .. } => expr(value),
    }
}

#[cycle(exprs)]
fn member(m: &Member) -> bool
    ensures { result ≡ member_keeps_on m.now }
{
    key(&m.key) && expr(&m.value)
}

#[cycle(exprs)]
fn detail(d: &Detail) -> bool
    ensures { result ≡ detail_keeps_on d.now }
{
    expr(&d.value)
}

#[cycle(exprs)]
fn exprs(es: &[Expr]) -> bool
    ensures { result ≡ list_all expr_keeps_on es.now }
{
    for e in es {
        if !expr(e) {
            return false;
        }
    }
    true
}

#[cycle(exprs)]
fn members(ms: &[Member]) -> bool
    ensures { result ≡ list_all member_keeps_on ms.now }
{
    for m in ms {
        if !member(m) {
            return false;
        }
    }
    true
}

#[cycle(exprs)]
fn details(ds: &[Detail]) -> bool
    ensures { result ≡ list_all detail_keeps_on ds.now }
{
    for d in ds {
        if !detail(d) {
            return false;
        }
    }
    true
}
