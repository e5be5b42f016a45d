//! Statements.
#![tactic(auto, using(crate::proofs::Adding::adding, crate::proofs::StmtLayers::stmt_layers))]

ghost use Rattle.std.specs.Prelude.{◌≡◌, map};
ghost use Rattle.bal_base.specs.declared.token.Keyword.TheVariants.{Final, Return, Panic};
ghost use Rattle.bal_base.specs.declared.token.Sign.TheVariants.{Equal, Underscore, Semicolon, Bar, OpenBrace, CloseBrace};
ghost use Rattle.bal_tree.specs.Pieces.{◌&◌, key as key_piece, key_if as key_if_pieces, sign as sign_piece, if_there, if_boxed, joined, separated};
ghost use Rattle.bal_tree.specs.Writing.{Writes};
ghost use Rattle.bal_tree.specs.ExprPieces.{expr_pieces};
ghost use Rattle.bal_tree.specs.ActionPieces.{rhs_pieces};
ghost use Rattle.bal_tree.specs.StmtPieces.{local_type_pieces, target_pieces, assign_sign as sign_of_op, range_sign as sign_of_range, range_pieces, pattern_pieces, ended as ended_pieces, local_pieces, foreach_head as foreach_pieces, as_else, stmt_pieces, else_pieces, if_pieces, block_pieces, clause_pieces};

use super::actions::rhs;
use super::exprs::{expr, postfix};
use super::names::{const_value, name, word};
use super::output::Output;
use super::signs::{key, key_if, sign, sign_if};
use super::types::type_tree;
use crate::action::Rhs;
use crate::expr::Expr;
use crate::name::Word;
use crate::stmt::{
    AssignOp, Block, Clause, Else, IfStmt, LocalType, Pattern, Range, RangeOp, Stmt, Target,
};
use bal_base::{Keyword, Sign};

#[cycle(stmt)]
pub fn stmts(out: &mut Output, stmts: &[Stmt])
    ensures { Writes out.old (joined (map stmt_pieces stmts.now)) out.new }
{
    for s in stmts {
        stmt(out, s);
    }
}

#[cycle(stmt)]
pub fn block(out: &mut Output, b: &Block)
    ensures { Writes out.old (block_pieces b.now) out.new }
{
    sign(out, Sign::OpenBrace);
    stmts(out, &b.stmts);
    sign(out, Sign::CloseBrace);
}

#[cycle(stmt)]
fn stmt(out: &mut Output, s: &Stmt)
    ensures { Writes out.old (stmt_pieces s.now) out.new }
{
    match s {
        Stmt::Local {
            is_final,
            ty,
            name,
            value,
            ..
        } => local(out, *is_final, ty, name, value),
        Stmt::Assign {
            target,
            op,
            value,
            ..
        } => assign(out, target, *op, value),
        Stmt::Ignore { value, .. } => ignore(out, value),
        Stmt::Rhs { rhs, .. } => ended(out, rhs),
        Stmt::If(s) => if_stmt(out, s),
        Stmt::While {
            condition,
            body,
            ..
        } => {
            key(out, Keyword::While);
            expr(out, condition);
            block(out, body);
        }
        Stmt::Foreach {
            ty,
            name,
            from,
            range,
            body,
            ..
        } => {
            foreach_head(out, ty, name, from, range);
            block(out, body);
        }
        Stmt::Match {
            value,
            clauses: rows,
            ..
        } => {
            key(out, Keyword::Match);
            expr(out, value);
            clauses(out, rows);
        }
        Stmt::Return { value, .. } => return_stmt(out, value),
        Stmt::Panic { value, .. } => panic_stmt(out, value),
        Stmt::Break { .. } => key_alone(out, Keyword::Break),
        Stmt::Continue { .. } => key_alone(out, Keyword::Continue),
        Stmt::Block(b) => block(out, b),
    }
}

fn local(out: &mut Output, is_final: bool, ty: &LocalType, name: &Word, value: &Rhs)
    ensures { Writes out.old (key_if_pieces is_final Final & local_pieces ty.now name.now value.now) out.new }
{
    key_if(out, is_final, Keyword::Final);
    local_type(out, ty);
    word(out, name);
    sign(out, Sign::Equal);
    ended(out, value);
}

fn local_type(out: &mut Output, ty: &LocalType)
    ensures { Writes out.old (local_type_pieces ty.now) out.new }
{
    match ty {
        LocalType::Type(t) => type_tree(out, t),
        LocalType::Var { .. } => key(out, Keyword::Var),
    }
}

fn assign(out: &mut Output, to: &Target, op: AssignOp, value: &Rhs)
    ensures { Writes out.old (target_pieces to.now & sign_piece (sign_of_op op) & ended_pieces value.now) out.new }
{
    target(out, to);
    sign(out, assign_sign(op));
    ended(out, value);
}

fn target(out: &mut Output, t: &Target)
    ensures { Writes out.old (target_pieces t.now) out.new }
{
    match t {
        Target::Name(n) => name(out, n),
        Target::Index { base, index, .. } => {
            postfix(out, base);
            sign(out, Sign::OpenBracket);
            expr(out, index);
            sign(out, Sign::CloseBracket);
        }
        Target::Field { base, field, .. } => {
            postfix(out, base);
            sign(out, Sign::Dot);
            word(out, field);
        }
    }
}

fn assign_sign(op: AssignOp) -> Sign
    ensures { result ≡ sign_of_op op }
{
    match op {
        AssignOp::Set => Sign::Equal,
        AssignOp::Add => Sign::PlusEqual,
        AssignOp::Subtract => Sign::MinusEqual,
        AssignOp::Multiply => Sign::StarEqual,
        AssignOp::Divide => Sign::SlashEqual,
    }
}

/// An expression or an action, and the semicolon behind it.
fn ended(out: &mut Output, r: &Rhs)
    ensures { Writes out.old (ended_pieces r.now) out.new }
{
    rhs(out, r);
    sign(out, Sign::Semicolon);
}

fn rhs_if_there(out: &mut Output, r: &Option<Rhs>)
    ensures { Writes out.old (if_there rhs_pieces r.now) out.new }
{
    if let Some(r) = r {
        rhs(out, r);
    }
}

fn ignore(out: &mut Output, value: &Rhs)
    ensures { Writes out.old (sign_piece Underscore & sign_piece Equal & ended_pieces value.now) out.new }
{
    sign(out, Sign::Underscore);
    sign(out, Sign::Equal);
    ended(out, value);
}

fn return_stmt(out: &mut Output, value: &Option<Rhs>)
    ensures { Writes out.old (key_piece Return & if_there rhs_pieces value.now & sign_piece Semicolon) out.new }
{
    key(out, Keyword::Return);
    rhs_if_there(out, value);
    sign(out, Sign::Semicolon);
}

fn panic_stmt(out: &mut Output, value: &Expr)
    ensures { Writes out.old (key_piece Panic & expr_pieces value.now & sign_piece Semicolon) out.new }
{
    key(out, Keyword::Panic);
    expr(out, value);
    sign(out, Sign::Semicolon);
}

/// A keyword, and the semicolon behind it.
fn key_alone(out: &mut Output, k: Keyword)
    ensures { Writes out.old (key_piece k & sign_piece Semicolon) out.new }
{
    key(out, k);
    sign(out, Sign::Semicolon);
}

#[cycle(stmt)]
fn if_stmt(out: &mut Output, s: &IfStmt)
    ensures { Writes out.old (if_pieces s.now) out.new }
{
    key(out, Keyword::If);
    expr(out, &s.condition);
    block(out, &s.then);
    else_if_there(out, &s.otherwise);
}

#[cycle(stmt)]
fn else_if_there(out: &mut Output, e: &Option<Box<Else>>)
    ensures { Writes out.old (if_boxed (λ e. as_else (else_pieces e)) e.now) out.new }
{
    if let Some(e) = e {
        key(out, Keyword::Else);
        behind_else(out, e);
    }
}

#[cycle(stmt)]
fn behind_else(out: &mut Output, e: &Else)
    ensures { Writes out.old (else_pieces e.now) out.new }
{
    match e {
        Else::If(s) => if_stmt(out, s),
        Else::Block(b) => block(out, b),
    }
}

/// What stands before the block of a loop over values.
fn foreach_head(out: &mut Output, ty: &LocalType, name: &Word, from: &Expr, range: &Option<Range>)
    ensures { Writes out.old (foreach_pieces ty.now name.now from.now range.now) out.new }
{
    key(out, Keyword::Foreach);
    local_type(out, ty);
    word(out, name);
    key(out, Keyword::In);
    expr(out, from);
    range_if_there(out, range);
}

fn range_if_there(out: &mut Output, range: &Option<Range>)
    ensures { Writes out.old (if_there range_pieces range.now) out.new }
{
    if let Some(range) = range {
        sign(out, range_sign(range.op));
        expr(out, &range.end);
    }
}

fn range_sign(op: RangeOp) -> Sign
    ensures { result ≡ sign_of_range op }
{
    match op {
        RangeOp::Through => Sign::Ellipsis,
        RangeOp::Below => Sign::DotDotLess,
    }
}

/// The clauses of a match statement, between braces.
#[cycle(stmt)]
fn clauses(out: &mut Output, clauses: &[Clause])
    ensures { Writes out.old (sign_piece OpenBrace & joined (map clause_pieces clauses.now) & sign_piece CloseBrace) out.new }
{
    sign(out, Sign::OpenBrace);
    each_clause(out, clauses);
    sign(out, Sign::CloseBrace);
}

#[cycle(stmt)]
fn each_clause(out: &mut Output, clauses: &[Clause])
    ensures { Writes out.old (joined (map clause_pieces clauses.now)) out.new }
{
    for c in clauses {
        clause(out, c);
    }
}

#[cycle(stmt)]
fn clause(out: &mut Output, c: &Clause)
    ensures { Writes out.old (clause_pieces c.now) out.new }
{
    patterns(out, &c.patterns);
    sign(out, Sign::FatArrow);
    block(out, &c.body);
}

/// The patterns of a clause, with `|` between each two.
fn patterns(out: &mut Output, patterns: &[Pattern])
    ensures { Writes out.old (separated Bar (map pattern_pieces patterns.now)) out.new }
{
    for (i, p) in patterns.iter().enumerate() {
        sign_if(out, i > 0, Sign::Bar);
        pattern(out, p);
    }
}

fn pattern(out: &mut Output, p: &Pattern)
    ensures { Writes out.old (pattern_pieces p.now) out.new }
{
    match p {
        Pattern::Any { .. } => sign(out, Sign::Underscore),
        Pattern::Value(v) => const_value(out, v),
        Pattern::Name(n) => name(out, n),
    }
}
