//! What statements need is met, in the order of the text: a function for each line of the table.
#![tactic(auto, using(crate::proofs::Walking::walking))]

ghost use Rattle.std.specs.Prelude.{map};
ghost use Rattle.needs.specs.Needs.{Runs, in_turn};
ghost use Rattle.typed_tree.specs.Listed.{members, one, ◌&◌};
ghost use Rattle.expr_needs.specs.ExprTable.{read_expr};
ghost use Rattle.expr_needs.specs.Needs.{BeginsBlock, EndsBlock, HasItem, Heads};
ghost use Rattle.stmt_needs.specs.PackageTable.{in_part, within};
ghost use Rattle.stmt_needs.specs.StmtTable.{first_way_needs, is_among, loop_body_needs, match_needs, pattern_needs, read_block, read_clause, read_else, read_if_stmt, read_stmt, stmts_needs, while_needs};

use crate::around::{Around, around_block, behind};
use crate::meets::MeetsStmts;
use crate::plain::{assignment, breaks, continues, local, loop_head, makes_loop};
use crate::words::{leaves, some_takes_all, takes_all};
use bal_base::Place;
use bal_tree::{Block, Clause, Else, Expr, IfStmt, Pattern, Stmt, Word, Worker};
use expr_needs::{Expected, Kind, condition, expr, of_kind, rhs, wanted_rhs};
use typed_tree::PerformForm;

/// What the statement needs is met, where this stands around it.
#[cycle(stmts)]
pub fn stmt<M: MeetsStmts>(work: &mut M, s: &Stmt, around: Around<'_>)
    requires { M.stands work.old }
    ensures stands { M.stands work.new }
    ensures met { Runs M.meaning ((read_stmt s.now).needs (within around.entry)) (M.going work.old) (M.going work.new) }
{
    match s {
        Stmt::Local {
            is_final,
            ty,
            name,
            value,
            at,
        } => {
            local(work, ty, name, value);
            work.declares(name, *is_final, around, *at)
        }
        Stmt::Assign {
            target,
            op,
            value,
            at,
        } => assignment(work, target, *op, value, *at),
        Stmt::Ignore { value, at } => {
            rhs(work, value, Expected::Nothing);
            work.performs(PerformForm::Ignore, 1, *at)
        }
        Stmt::Rhs { rhs: value, at } => {
            rhs(work, value, Expected::Nothing);
            work.is_ignorable(*at);
            work.performs(PerformForm::Evaluate, 1, *at)
        }
        Stmt::If(s) => if_stmt(work, s, around),
        Stmt::While {
            condition: c,
            body,
            at,
        } => while_stmt(work, body, c, *at),
        Stmt::Foreach {
            ty,
            name,
            from,
            range,
            body,
            at,
        } => {
            loop_head(work, ty, name, from, range);
            loop_body(work, name, body);
            makes_loop(work, range, *at)
        }
        Stmt::Match {
            value,
            clauses: cs,
            at,
        } => match_stmt(work, cs, value, around, *at),
        Stmt::Return { value: None, at } => work.returns_nil(*at),
        Stmt::Return { value: Some(r), at } => {
            work.wants_result();
            wanted_rhs(work, r);
            work.returns(*at)
        }
        Stmt::Panic { value, at } => {
            of_kind(work, Kind::AnyError, value);
            work.performs(PerformForm::Panic, 1, *at);
            work.stops()
        }
        Stmt::Break { at } => breaks(work, around.in_loop, *at),
        Stmt::Continue { at } => continues(work, around.in_loop, *at),
        Stmt::Block(b) => {
            block(work, b, around);
            work.makes_block(b.at)
        }
    }
}

/// The same of a block, which waits for its construct.
#[cycle(stmts)]
pub fn block<M: MeetsStmts>(work: &mut M, b: &Block, around: Around<'_>)
    requires { M.stands work.old }
    ensures stands { M.stands work.new }
    ensures met { Runs M.meaning ((read_block b.now).needs (within around.entry)) (M.going work.old) (M.going work.new) }
{
    work.begins_block();
    stmts(work, &b.stmts, around.in_loop, &[], &[]);
    work.ends_block()
}

/// The same of the statements of a block, or of an initial part, which the workers and the rest of the function follow.
#[cycle(stmts)]
pub fn stmts<M: MeetsStmts>(
    work: &mut M,
    ss: &[Stmt],
    in_loop: bool,
    workers: &[Worker],
    rest: &[Stmt],
)
    requires { M.stands work.old }
    ensures stands { M.stands work.new }
    ensures met { Runs M.meaning (stmts_needs (in_part in_loop workers.now rest.now) (map read_stmt ss.now)) (M.going work.old) (M.going work.new) }
{
    for i in 0..ss.len() {
        let around = Around {
            in_loop,
            following: behind(ss, i),
            workers,
            rest,
        };
        stmt(work, &ss[i], around);
    }
}

/// `while c { .. }`
#[cycle(stmts)]
fn while_stmt<M: MeetsStmts>(work: &mut M, body: &Block, c: &Expr, at: Place)
    requires { M.stands work.old }
    ensures stands { M.stands work.new }
    ensures met { Runs M.meaning (while_needs (read_expr c.now) (read_block body.now) at) (M.going work.old) (M.going work.new) }
{
    heads(work, body);
    condition(work, c);
    block(work, body, around_block(true));
    work.makes_while(leaves(c, body), at)
}

/// The body of a `foreach`, in which the loop has its variable.
#[cycle(stmts)]
fn loop_body<M: MeetsStmts>(work: &mut M, name: &Word, body: &Block)
    requires { M.stands work.old }
    ensures stands { M.stands work.new }
    ensures met { Runs M.meaning (loop_body_needs name.now (read_block body.now)) (M.going work.old) (M.going work.new) }
{
    heads(work, body);
    work.opens_loop();
    has_item(work, name, body);
    block(work, body, around_block(true))
}

/// A loop with this body begins.
fn heads<M: MeetsStmts>(work: &mut M, body: &Block)
    requires { M.stands work.old }
    ensures stands { M.stands work.new }
    ensures met { Runs M.meaning (one (Heads (members (read_block body.now).assigned))) (M.going work.old) (M.going work.new) }
{
    work.heads(body)
}

/// The loop with this body has its variable.
fn has_item<M: MeetsStmts>(work: &mut M, name: &Word, body: &Block)
    requires { M.stands work.old }
    ensures stands { M.stands work.new }
    ensures met { Runs M.meaning (one (HasItem name.now.name (is_among name.now.name (members (read_block body.now).assigned)))) (M.going work.old) (M.going work.new) }
{
    work.has_item(name, body)
}

/// `if c { .. } else { .. }`
#[cycle(stmts)]
fn if_stmt<M: MeetsStmts>(work: &mut M, s: &IfStmt, around: Around<'_>)
    requires { M.stands work.old }
    ensures stands { M.stands work.new }
    ensures met { Runs M.meaning ((read_if_stmt s.now).needs (within around.entry)) (M.going work.old) (M.going work.new) }
{
    first_way(work, &s.then, &s.condition, around);
    match &s.otherwise {
        None => {
            nothing(work);
            work.makes_if(s.at)
        }
        Some(e) => {
            otherwise(work, e, around);
            work.makes_if(s.at)
        }
    }
}

/// The way on which the condition holds; then the other one is entered.
#[cycle(stmts)]
fn first_way<M: MeetsStmts>(work: &mut M, then: &Block, c: &Expr, around: Around<'_>)
    requires { M.stands work.old }
    ensures stands { M.stands work.new }
    ensures met { Runs M.meaning (first_way_needs (read_expr c.now) (read_block then.now) (within around.entry)) (M.going work.old) (M.going work.new) }
{
    condition(work, c);
    block(work, then, around);
    work.switches()
}

/// Without `else` nothing is done there.
fn nothing<M: MeetsStmts>(work: &mut M)
    requires { M.stands work.old }
    ensures stands { M.stands work.new }
    ensures met { Runs M.meaning (one BeginsBlock & one EndsBlock) (M.going work.old) (M.going work.new) }
{
    work.begins_block();
    work.ends_block()
}

/// What stands behind `else`. A branch stands there in a block of its own.
#[cycle(stmts)]
fn otherwise<M: MeetsStmts>(work: &mut M, e: &Else, around: Around<'_>)
    requires { M.stands work.old }
    ensures stands { M.stands work.new }
    ensures met { Runs M.meaning ((read_else e.now).needs (within around.entry)) (M.going work.old) (M.going work.new) }
{
    match e {
        Else::If(s) => {
            work.begins_block();
            if_stmt(work, s, around);
            work.ends_block()
        }
        Else::Block(b) => block(work, b, around),
    }
}

/// `match e { .. }`
#[cycle(stmts)]
fn match_stmt<M: MeetsStmts>(
    work: &mut M,
    cs: &[Clause],
    value: &Expr,
    around: Around<'_>,
    at: Place,
)
    requires { M.stands work.old }
    ensures stands { M.stands work.new }
    ensures met { Runs M.meaning (match_needs (read_expr value.now) (map read_clause cs.now) at (within around.entry)) (M.going work.old) (M.going work.new) }
{
    expr(work, value, Expected::Nothing);
    work.begins_match(value);
    clauses(work, cs, around);
    work.makes_match(some_takes_all(cs), at)
}

#[cycle(stmts)]
fn clauses<M: MeetsStmts>(work: &mut M, cs: &[Clause], around: Around<'_>)
    requires { M.stands work.old }
    ensures stands { M.stands work.new }
    ensures met { Runs M.meaning (in_turn (λ c. c.needs (within around.entry)) (map read_clause cs.now)) (M.going work.old) (M.going work.new) }
{
    for c in cs {
        clause(work, c, around);
    }
}

/// `1|2 => { .. }`
#[cycle(stmts)]
fn clause<M: MeetsStmts>(work: &mut M, c: &Clause, around: Around<'_>)
    requires { M.stands work.old }
    ensures stands { M.stands work.new }
    ensures met { Runs M.meaning ((read_clause c.now).needs (within around.entry)) (M.going work.old) (M.going work.new) }
{
    patterns(work, &c.patterns);
    work.begins_clause(takes_all(&c.patterns));
    block(work, &c.body, around);
    work.ends_clause(c.at)
}

fn patterns<M: MeetsStmts>(work: &mut M, ps: &[Pattern])
    requires { M.stands work.old }
    ensures stands { M.stands work.new }
    ensures met { Runs M.meaning (in_turn pattern_needs ps.now) (M.going work.old) (M.going work.new) }
{
    for p in ps {
        work.has_pattern(p);
    }
}
