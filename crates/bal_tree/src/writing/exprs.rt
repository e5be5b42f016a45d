//! Expressions.
#![tactic(auto, using(crate::proofs::Adding::adding, crate::proofs::ExprLayers::expr_layers))]

ghost use Rattle.std.specs.Prelude.{◌≡◌, map};
ghost use Rattle.bal_base.specs.declared.token.Sign.TheVariants.{Comma};
ghost use Rattle.bal_tree.specs.Pieces.{◌&◌, if_boxed, behind, separated, sign as sign_piece};
ghost use Rattle.bal_tree.specs.Writing.{Writes};
ghost use Rattle.bal_tree.specs.ExprPieces.{expr_pieces, postfix_pieces, call_pieces, primary_pieces, key_pieces, member_pieces, detail_pieces, prefix_op as prefix_piece, binary_sign as sign_of, type_test as type_test_pieces, function_head as function_head_pieces, arguments as arguments_pieces, as_next};

use super::names::{literal, name, string, word};
use super::output::Output;
use super::signs::{key, sign, sign_if};
use super::types::{self, type_tree};
use crate::expr::{BinaryOp, Call, Detail, Expr, Key, Member, Postfix, PrefixOp, Primary};
use crate::params::Params;
use crate::types::TypeTree;
use bal_base::{Keyword, Sign};

#[cycle(exprs)]
pub fn expr(out: &mut Output, e: &Expr)
    ensures { Writes out.old (expr_pieces e.now) out.new }
{
    match e {
        Expr::Postfix(e) => postfix(out, e),
        Expr::Prefix { op, operand, .. } => {
            prefix_op(out, *op);
            expr(out, operand);
        }
        Expr::Cast { ty, operand, .. } => {
            types::in_angles(out, ty);
            expr(out, operand);
        }
        Expr::Binary {
            left,
            op,
            right,
            ..
        } => {
            expr(out, left);
            expr_behind(out, binary_sign(*op), right);
        }
        Expr::TypeTest { operand, ty, .. } => {
            expr(out, operand);
            type_test(out, ty);
        }
        Expr::Conditional {
            condition,
            middle,
            last,
            ..
        } => {
            expr(out, condition);
            expr_behind(out, Sign::Question, middle);
            expr_behind(out, Sign::Colon, last);
        }
        Expr::Trap { operand, .. } => {
            key(out, Keyword::Trap);
            expr(out, operand);
        }
        Expr::Function {
            isolated,
            params,
            result,
            value,
            ..
        } => {
            function_head(out, *isolated, params, result);
            expr_behind(out, Sign::FatArrow, value);
        }
    }
}

/// The expression behind a sign, as `, e`.
#[cycle(exprs)]
fn expr_behind(out: &mut Output, s: Sign, e: &Expr)
    ensures { Writes out.old (sign_piece s & expr_pieces e.now) out.new }
{
    sign(out, s);
    expr(out, e);
}

/// `is T`
fn type_test(out: &mut Output, ty: &TypeTree)
    ensures { Writes out.old (type_test_pieces ty.now) out.new }
{
    key(out, Keyword::Is);
    type_tree(out, ty);
}

/// `function (T a) returns R`, where `isolated` may stand before it.
fn function_head(out: &mut Output, isolated: bool, params: &Params, result_type: &TypeTree)
    ensures { Writes out.old (function_head_pieces isolated params.now result_type.now) out.new }
{
    types::any_function(out, isolated);
    types::params(out, params);
    types::returns(out, result_type);
}

fn prefix_op(out: &mut Output, op: PrefixOp)
    ensures { Writes out.old (prefix_piece op) out.new }
{
    match op {
        PrefixOp::Negate => sign(out, Sign::Minus),
        PrefixOp::Not => sign(out, Sign::Not),
        PrefixOp::Check => key(out, Keyword::Check),
        PrefixOp::CheckPanic => key(out, Keyword::CheckPanic),
    }
}

fn binary_sign(op: BinaryOp) -> Sign
    ensures { result ≡ sign_of op }
{
    match op {
        BinaryOp::Multiply => Sign::Star,
        BinaryOp::Divide => Sign::Slash,
        BinaryOp::Remainder => Sign::Percent,
        BinaryOp::Add => Sign::Plus,
        BinaryOp::Subtract => Sign::Minus,
        BinaryOp::Less => Sign::Less,
        BinaryOp::LessEqual => Sign::LessEqual,
        BinaryOp::Greater => Sign::Greater,
        BinaryOp::GreaterEqual => Sign::GreaterEqual,
        BinaryOp::Equal => Sign::DoubleEqual,
        BinaryOp::NotEqual => Sign::NotEqual,
        BinaryOp::Same => Sign::TripleEqual,
        BinaryOp::NotSame => Sign::NotTripleEqual,
        BinaryOp::And => Sign::DoubleAmpersand,
        BinaryOp::Or => Sign::DoubleBar,
        BinaryOp::Elvis => Sign::Elvis,
    }
}

#[cycle(exprs)]
pub fn postfix(out: &mut Output, e: &Postfix)
    ensures { Writes out.old (postfix_pieces e.now) out.new }
{
    match e {
        Postfix::Primary(e) => primary(out, e),
        Postfix::Call(e) => call(out, e),
        Postfix::Field { base, field, .. } => {
            postfix(out, base);
            sign(out, Sign::Dot);
            word(out, field);
        }
        Postfix::OptionalField { base, field, .. } => {
            postfix(out, base);
            sign(out, Sign::QuestionDot);
            word(out, field);
        }
        Postfix::Index { base, index, .. } => {
            postfix(out, base);
            sign(out, Sign::OpenBracket);
            expr(out, index);
            sign(out, Sign::CloseBracket);
        }
    }
}

#[cycle(exprs)]
pub fn call(out: &mut Output, e: &Call)
    ensures { Writes out.old (call_pieces e.now) out.new }
{
    match e {
        Call::Function { callee, args, .. } => {
            postfix(out, callee);
            arguments(out, args);
        }
        Call::Method {
            receiver,
            method,
            args,
            ..
        } => {
            postfix(out, receiver);
            sign(out, Sign::Dot);
            word(out, method);
            arguments(out, args);
        }
    }
}

/// `(a, b)`
#[cycle(exprs)]
fn arguments(out: &mut Output, args: &[Expr])
    ensures { Writes out.old (arguments_pieces (map expr_pieces args.now)) out.new }
{
    sign(out, Sign::OpenParen);
    exprs(out, args);
    sign(out, Sign::CloseParen);
}

/// `a, b`
#[cycle(exprs)]
fn exprs(out: &mut Output, es: &[Expr])
    ensures { Writes out.old (separated Comma (map expr_pieces es.now)) out.new }
{
    for (i, e) in es.iter().enumerate() {
        sign_if(out, i > 0, Sign::Comma);
        expr(out, e);
    }
}

#[cycle(exprs)]
fn primary(out: &mut Output, e: &Primary)
    ensures { Writes out.old (primary_pieces e.now) out.new }
{
    match e {
        Primary::Literal(l) => literal(out, l),
        Primary::Name(n) => name(out, n),
        Primary::Parens { inner, .. } => {
            sign(out, Sign::OpenParen);
            expr(out, inner);
            sign(out, Sign::CloseParen);
        }
        Primary::List { items, .. } => {
            sign(out, Sign::OpenBracket);
            exprs(out, items);
            sign(out, Sign::CloseBracket);
        }
        Primary::Mapping { members, .. } => {
            sign(out, Sign::OpenBrace);
            member_list(out, members);
            sign(out, Sign::CloseBrace);
        }
        Primary::Error {
            message,
            cause,
            details,
            ..
        } => {
            key(out, Keyword::Error);
            sign(out, Sign::OpenParen);
            expr(out, message);
            cause_if_there(out, cause);
            detail_list(out, details);
            sign(out, Sign::CloseParen);
        }
    }
}

/// `a: x, "b": y`
#[cycle(exprs)]
fn member_list(out: &mut Output, ms: &[Member])
    ensures { Writes out.old (separated Comma (map member_pieces ms.now)) out.new }
{
    for (i, m) in ms.iter().enumerate() {
        sign_if(out, i > 0, Sign::Comma);
        member(out, m);
    }
}

#[cycle(exprs)]
fn member(out: &mut Output, m: &Member)
    ensures { Writes out.old (member_pieces m.now) out.new }
{
    member_key(out, &m.key);
    expr_behind(out, Sign::Colon, &m.value);
}

#[cycle(exprs)]
fn member_key(out: &mut Output, k: &Key)
    ensures { Writes out.old (key_pieces k.now) out.new }
{
    match k {
        Key::Word(w) => word(out, w),
        Key::Str { text, .. } => string(out, text),
        Key::Computed { value, .. } => {
            sign(out, Sign::OpenBracket);
            expr(out, value);
            sign(out, Sign::CloseBracket);
        }
    }
}

/// `, e`, where there is a cause.
#[cycle(exprs)]
fn cause_if_there(out: &mut Output, e: &Option<Box<Expr>>)
    ensures { Writes out.old (if_boxed (λ e. as_next (expr_pieces e)) e.now) out.new }
{
    if let Some(e) = e {
        expr_behind(out, Sign::Comma, e);
    }
}

/// `, a = x, b = y`
#[cycle(exprs)]
fn detail_list(out: &mut Output, ds: &[Detail])
    ensures { Writes out.old (behind Comma (map detail_pieces ds.now)) out.new }
{
    for d in ds {
        next_detail(out, d);
    }
}

/// `, a = x`
#[cycle(exprs)]
fn next_detail(out: &mut Output, d: &Detail)
    ensures { Writes out.old (as_next (detail_pieces d.now)) out.new }
{
    sign(out, Sign::Comma);
    detail(out, d);
}

/// `a = x`
#[cycle(exprs)]
fn detail(out: &mut Output, d: &Detail)
    ensures { Writes out.old (detail_pieces d.now) out.new }
{
    word(out, &d.name);
    expr_behind(out, Sign::Equal, &d.value);
}
