//! What expressions need is met, in the order of the text: a function for each line of the table.
#![tactic(auto, using(crate::proofs::Walking::walking))]

ghost use Rattle.std.specs.Prelude.{map};
ghost use Rattle.needs.specs.Needs.{Runs, in_turn};
ghost use Rattle.typed_tree.specs.Listed.{one};
ghost use Rattle.expr_needs.specs.ExprTable.{accessed_needs, against, argument_needs, as_wanted, callee_needs, called_as, condition_needs, details_needs, freely, index_needs, item_needs, read_call, read_detail, read_expr, read_key, read_member, read_postfix, read_primary, receiver_needs};

use crate::expected::Expected;
use crate::kind::{Kind, expectation};
use crate::meets::MeetsExprs;
use crate::operators::{family_of, left_expects, prefix_expects, right_expects};
use crate::reading::{place, postfix_place, primary_place};
use crate::steps::{begins_anonymous, left, made, prefixed, right};
use bal_base::{FaultCode, Place};
use bal_tree::{Call, Detail, Expr, Key, Member, Postfix, Primary, Word};

/// What the expression needs is met, where so much is expected of it.
#[cycle(exprs)]
pub fn expr<M: MeetsExprs>(work: &mut M, e: &Expr, expected: Expected)
    requires { M.stands work.old }
    ensures stands { M.stands work.new }
    ensures met { Runs M.meaning ((read_expr e.now).needs expected) (M.going work.old) (M.going work.new) }
{
    match e {
        Expr::Postfix(e) => postfix(work, e, expected),
        Expr::Prefix { op, operand, at } => {
            expr(work, operand, prefix_expects(*op));
            prefixed(work, *op, place(operand), *at)
        }
        Expr::Cast { ty, operand, at } => {
            work.describes(ty);
            expr(work, operand, Expected::Nothing);
            work.casts(*at)
        }
        Expr::Binary {
            left: a,
            op,
            right: b,
            at,
        } => {
            expr(work, a, left_expects(family_of(*op)));
            left(work, family_of(*op), place(a));
            expr(work, b, right_expects(family_of(*op), expected));
            right(work, family_of(*op), place(b));
            made(work, family_of(*op), *at)
        }
        Expr::TypeTest { operand, ty, at } => {
            expr(work, operand, Expected::Nothing);
            work.describes(ty);
            work.tests(operand, *at)
        }
        Expr::Conditional {
            condition: c,
            middle,
            last,
            at,
        } => {
            condition(work, c);
            expr(work, middle, Expected::Nothing);
            work.switches();
            expr(work, last, Expected::Nothing);
            work.chooses(*at)
        }
        Expr::Trap { operand, at } => {
            expr(work, operand, Expected::Nothing);
            work.traps(*at)
        }
        Expr::Function {
            isolated,
            params,
            result: gives,
            value,
            at,
        } => {
            begins_anonymous(work, params, gives);
            work.begins_value(value);
            wanted(work, value);
            work.makes_anonymous(*isolated, *at)
        }
    }
}

/// The same of what has to be of the kind.
#[cycle(exprs)]
pub fn of_kind<M: MeetsExprs>(work: &mut M, kind: Kind, e: &Expr)
    requires { M.stands work.old }
    ensures stands { M.stands work.new }
    ensures met { Runs M.meaning (against kind (read_expr e.now)) (M.going work.old) (M.going work.new) }
{
    expr(work, e, expectation(kind));
    work.is_of(kind, place(e))
}

/// The same of a condition, one way of which is then entered.
#[cycle(exprs)]
pub fn condition<M: MeetsExprs>(work: &mut M, e: &Expr)
    requires { M.stands work.old }
    ensures stands { M.stands work.new }
    ensures met { Runs M.meaning (condition_needs (read_expr e.now)) (M.going work.old) (M.going work.new) }
{
    of_kind(work, Kind::Truth, e);
    work.splits(true)
}

/// The same of what has to be of the wanted type.
#[cycle(exprs)]
pub fn wanted<M: MeetsExprs>(work: &mut M, e: &Expr)
    requires { M.stands work.old }
    ensures stands { M.stands work.new }
    ensures met { Runs M.meaning (as_wanted (read_expr e.now)) (M.going work.old) (M.going work.new) }
{
    expr(work, e, Expected::Wanted);
    work.is_wanted(place(e))
}

/// The same of an expression with suffixes.
#[cycle(exprs)]
pub fn postfix<M: MeetsExprs>(work: &mut M, e: &Postfix, expected: Expected)
    requires { M.stands work.old }
    ensures stands { M.stands work.new }
    ensures met { Runs M.meaning ((read_postfix e.now).needs expected) (M.going work.old) (M.going work.new) }
{
    match e {
        Postfix::Primary(e) => primary(work, e, expected),
        Postfix::Call(e) => call(work, e, expected),
        Postfix::Field { base, field, at } => {
            postfix(work, base, Expected::Nothing);
            work.is_of(Kind::AnyMapping, postfix_place(base));
            work.reads_field(field, *at)
        }
        Postfix::OptionalField { base, field, at } => {
            postfix(work, base, Expected::Nothing);
            work.is_of(Kind::MappingOrNil, postfix_place(base));
            work.reads_optional(field, *at)
        }
        Postfix::Index { base, index, at } => {
            accessed(work, true, base);
            indexed(work, index);
            work.reads_element(*at)
        }
    }
}

/// The same of what a member is taken of, of a string only where so marked.
#[cycle(exprs)]
pub fn accessed<M: MeetsExprs>(work: &mut M, texts: bool, e: &Postfix)
    requires { M.stands work.old }
    ensures stands { M.stands work.new }
    ensures met { Runs M.meaning (accessed_needs texts (read_postfix e.now)) (M.going work.old) (M.going work.new) }
{
    postfix(work, e, Expected::Nothing);
    work.is_accessed(texts, postfix_place(e))
}

/// The same of the index or key of a member.
#[cycle(exprs)]
pub fn indexed<M: MeetsExprs>(work: &mut M, e: &Expr)
    requires { M.stands work.old }
    ensures stands { M.stands work.new }
    ensures met { Runs M.meaning (index_needs (read_expr e.now)) (M.going work.old) (M.going work.new) }
{
    expr(work, e, Expected::Immutable);
    work.is_index(place(e))
}

/// The same of a call.
#[cycle(exprs)]
fn call<M: MeetsExprs>(work: &mut M, e: &Call, expected: Expected)
    requires { M.stands work.old }
    ensures stands { M.stands work.new }
    ensures met { Runs M.meaning ((read_call e.now).needs expected) (M.going work.old) (M.going work.new) }
{
    match e {
        Call::Function {
            callee: f,
            args,
            at,
        } => {
            callee(work, false, f, args.len(), *at);
            arguments(work, args, *at);
            work.makes_call(*at)
        }
        Call::Method {
            receiver,
            method,
            args,
            at,
        } => {
            received(work, receiver, method, args.len(), *at);
            arguments(work, args, *at);
            work.makes_call(*at)
        }
    }
}

/// What a method is called of, with so many arguments.
#[cycle(exprs)]
fn received<M: MeetsExprs>(work: &mut M, e: &Postfix, method: &Word, count: usize, at: Place)
    requires { M.stands work.old }
    ensures stands { M.stands work.new }
    ensures met { Runs M.meaning (receiver_needs (read_postfix e.now) method.now count at) (M.going work.old) (M.going work.new) }
{
    postfix(work, e, Expected::Nothing);
    work.calls_method(method, count, at)
}

/// What a call needs that is started: no method is.
pub(crate) fn started<M: MeetsExprs>(work: &mut M, e: &Call)
    requires { M.stands work.old }
    ensures stands { M.stands work.new }
    ensures met { Runs M.meaning ((read_call e.now).starts) (M.going work.old) (M.going work.new) }
{
    match e {
        Call::Function {
            callee: f,
            args,
            at,
        } => {
            callee(work, true, f, args.len(), *at);
            arguments(work, args, *at)
        }
        Call::Method {
            receiver,
            method,
            ..
        } => {
            postfix(work, receiver, Expected::Nothing);
            work.fails(FaultCode::Unknown, method.at)
        }
    }
}

/// What is called with so many arguments: what a name stands for, or a value.
#[cycle(exprs)]
fn callee<M: MeetsExprs>(work: &mut M, started: bool, f: &Postfix, count: usize, at: Place)
    requires { M.stands work.old }
    ensures stands { M.stands work.new }
    ensures met { Runs M.meaning (callee_needs started (read_postfix f.now).name (read_postfix f.now) count at) (M.going work.old) (M.going work.new) }
{
    match f {
        Postfix::Primary(e) => called_primary(work, started, e, count, at),
        Postfix::Call(_) | Postfix::Field { .. } => called_value(work, f),
        Postfix::OptionalField { .. } | Postfix::Index { .. } => called_value(work, f),
    }
}

#[cycle(exprs)]
fn called_primary<M: MeetsExprs>(work: &mut M, started: bool, f: &Primary, count: usize, at: Place)
    requires { M.stands work.old }
    ensures stands { M.stands work.new }
    ensures met { Runs M.meaning (callee_needs started (read_primary f.now).name (read_primary f.now) count at) (M.going work.old) (M.going work.new) }
{
    match f {
        Primary::Name(q) => work.calls_named(started, q, count, at),
        Primary::Literal(_) | Primary::Parens { .. } => called_other(work, f),
        Primary::List { .. } | Primary::Mapping { .. } => called_other(work, f),
        Primary::Error { .. } => called_other(work, f),
    }
}

#[cycle(exprs)]
fn called_value<M: MeetsExprs>(work: &mut M, f: &Postfix)
    requires { M.stands work.old }
    ensures stands { M.stands work.new }
    ensures met { Runs M.meaning (called_as (read_postfix f.now)) (M.going work.old) (M.going work.new) }
{
    postfix(work, f, Expected::Immutable);
    work.is_of(Kind::AnyFunction, postfix_place(f));
    work.calls_value()
}

#[cycle(exprs)]
fn called_other<M: MeetsExprs>(work: &mut M, f: &Primary)
    requires { M.stands work.old }
    ensures stands { M.stands work.new }
    ensures met { Runs M.meaning (called_as (read_primary f.now)) (M.going work.old) (M.going work.new) }
{
    primary(work, f, Expected::Immutable);
    work.is_of(Kind::AnyFunction, primary_place(f));
    work.calls_value()
}

#[cycle(exprs)]
fn arguments<M: MeetsExprs>(work: &mut M, args: &[Expr], at: Place)
    requires { M.stands work.old }
    ensures stands { M.stands work.new }
    ensures met { Runs M.meaning (in_turn (argument_needs at) (map read_expr args.now)) (M.going work.old) (M.going work.new) }
{
    for e in args {
        argument(work, e, at);
    }
}

#[cycle(exprs)]
fn argument<M: MeetsExprs>(work: &mut M, e: &Expr, at: Place)
    requires { M.stands work.old }
    ensures stands { M.stands work.new }
    ensures met { Runs M.meaning (argument_needs at (read_expr e.now)) (M.going work.old) (M.going work.new) }
{
    work.expects_argument(at);
    expr(work, e, Expected::Wanted);
    work.is_argument(place(e))
}

/// The same of an expression without suffixes.
#[cycle(exprs)]
fn primary<M: MeetsExprs>(work: &mut M, e: &Primary, expected: Expected)
    requires { M.stands work.old }
    ensures stands { M.stands work.new }
    ensures met { Runs M.meaning ((read_primary e.now).needs expected) (M.going work.old) (M.going work.new) }
{
    match e {
        Primary::Literal(l) => work.gives_literal(l),
        Primary::Name(q) => work.gives_named(q),
        Primary::Parens { inner, at } => {
            expr(work, inner, expected);
            work.encloses(*at)
        }
        Primary::List { items: es, at } => {
            work.chooses_list(expected, es, *at);
            items(work, es);
            work.makes_list(es.len(), *at)
        }
        Primary::Mapping { members: ms, at } => {
            work.chooses_mapping(expected, ms, *at);
            members(work, ms);
            work.makes_mapping(ms.len(), *at)
        }
        Primary::Error {
            message,
            cause: None,
            details: ds,
            at,
        } => {
            of_kind(work, Kind::Text, message);
            work.lacks_cause(*at);
            detailed(work, ds, *at)
        }
        Primary::Error {
            message,
            cause: Some(cause),
            details: ds,
            at,
        } => {
            of_kind(work, Kind::Text, message);
            of_kind(work, Kind::ErrorOrNil, cause);
            detailed(work, ds, *at)
        }
    }
}

#[cycle(exprs)]
fn items<M: MeetsExprs>(work: &mut M, es: &[Expr])
    requires { M.stands work.old }
    ensures stands { M.stands work.new }
    ensures met { Runs M.meaning (in_turn item_needs (map read_expr es.now)) (M.going work.old) (M.going work.new) }
{
    for e in es {
        item(work, e);
    }
}

#[cycle(exprs)]
fn item<M: MeetsExprs>(work: &mut M, e: &Expr)
    requires { M.stands work.old }
    ensures stands { M.stands work.new }
    ensures met { Runs M.meaning (item_needs (read_expr e.now)) (M.going work.old) (M.going work.new) }
{
    work.expects_item();
    expr(work, e, Expected::Wanted);
    work.is_item(place(e))
}

#[cycle(exprs)]
fn members<M: MeetsExprs>(work: &mut M, ms: &[Member])
    requires { M.stands work.old }
    ensures stands { M.stands work.new }
    ensures met { Runs M.meaning (in_turn freely (map read_member ms.now)) (M.going work.old) (M.going work.new) }
{
    for m in ms {
        member(work, m);
    }
}

#[cycle(exprs)]
fn member<M: MeetsExprs>(work: &mut M, m: &Member)
    requires { M.stands work.old }
    ensures stands { M.stands work.new }
    ensures met { Runs M.meaning (freely (read_member m.now)) (M.going work.old) (M.going work.new) }
{
    key(work, &m.key);
    work.expects_member();
    expr(work, &m.value, Expected::Wanted);
    work.is_member(place(&m.value))
}

#[cycle(exprs)]
fn key<M: MeetsExprs>(work: &mut M, k: &Key)
    requires { M.stands work.old }
    ensures stands { M.stands work.new }
    ensures met { Runs M.meaning (freely (read_key k.now)) (M.going work.old) (M.going work.new) }
{
    match k {
        Key::Word(w) => work.gives_key(w.name.as_text(), w.at),
        Key::Str { text, at } => work.gives_key(text, *at),
        Key::Computed { value, .. } => {
            of_kind(work, Kind::Text, value);
            work.computes_key()
        }
    }
}

/// The details of an error, which is then made.
#[cycle(exprs)]
fn detailed<M: MeetsExprs>(work: &mut M, ds: &[Detail], at: Place)
    requires { M.stands work.old }
    ensures stands { M.stands work.new }
    ensures met { Runs M.meaning (details_needs (map read_detail ds.now) at) (M.going work.old) (M.going work.new) }
{
    work.begins_keys();
    details(work, ds);
    work.makes_error(ds.len(), at)
}

#[cycle(exprs)]
fn details<M: MeetsExprs>(work: &mut M, ds: &[Detail])
    requires { M.stands work.old }
    ensures stands { M.stands work.new }
    ensures met { Runs M.meaning (in_turn freely (map read_detail ds.now)) (M.going work.old) (M.going work.new) }
{
    for d in ds {
        detail(work, d);
    }
}

#[cycle(exprs)]
fn detail<M: MeetsExprs>(work: &mut M, d: &Detail)
    requires { M.stands work.old }
    ensures stands { M.stands work.new }
    ensures met { Runs M.meaning (freely (read_detail d.now)) (M.going work.old) (M.going work.new) }
{
    work.gives_key(d.name.name.as_text(), d.name.at);
    expr(work, &d.value, Expected::Nothing);
    work.is_detail(place(&d.value))
}
