//! The lowering of statements.
#![tactic(auto, using(lower_expr::proofs::Drafting::drafting, typed_tree::proofs::StmtLayers::stmt_layers))]

ghost use Rattle.std.specs.Prelude.{◌≡◌, OnOk, Option, map, option_map};
ghost use Rattle.lower_expr.specs.Drafts.{making_of};
ghost use Rattle.lower_model.specs.Making.{clause_made, clauses_in_turn, return_made, stmt_made, stmts_in_turn};
ghost use Rattle.lower_stmt.specs.Turning.{turns_of};

use crate::loops::{begins, prepares, tries};
use crate::matches::patterns;
use crate::turning::{Turning, begin_turns, breaks, continues, end_turns};
use crate::updates::updates;
use bal_base::Memory;
use held_operations::Op;
use lower_expr::{Draft, expr, exprs, perform};
use typed_tree::{TypedClause, TypedExpr, TypedStmt};

/// A return with a value, or with nil.
fn returns<'a>(draft: &mut Draft<'a>, value: &'a Option<Box<TypedExpr>>) -> Result<(), Memory>
    ensures { OnOk result (making_of draft.new ≡ return_made value.now (making_of draft.old)) }
{
    match value {
        None => draft.dos(&[Op::Nil, Op::Return]),
        Some(e) => {
            expr(draft, e)?;
            draft.does(Op::Return)
        }
    }
}

/// What a statement adds, within a loop if there is one, in time that grows with the nodes of the tree. It answers want of memory
/// alone; where it leaves a loop and there is none, the draft is spoilt.
#[cycle(stmt)]
pub fn stmt<'a>(
    draft: &mut Draft<'a>,
    s: &'a TypedStmt,
    around: Option<Turning>,
) -> Result<(), Memory>
    ensures { OnOk result (making_of draft.new ≡ stmt_made s.now (option_map turns_of around) (making_of draft.old)) }
{
    match s {
        TypedStmt::Set { slot, value, .. } => {
            expr(draft, value)?;
            draft.does(Op::Store(*slot as u64))
        }
        TypedStmt::Perform { form, operands, .. } => {
            exprs(draft, operands)?;
            perform(draft, *form)
        }
        TypedStmt::If {
            condition,
            first,
            second,
            ..
        } => {
            expr(draft, condition)?;
            let ways = draft.part()?;
            stmts(draft, first, around)?;
            draft.otherwise(ways)?;
            stmts(draft, second, around)?;
            draft.join(ways);
            Ok(())
        }
        TypedStmt::While {
            condition,
            body,
            ..
        } => {
            let turning = begin_turns(draft)?;
            expr(draft, condition)?;
            draft.go_to_if_not(turning.exit)?;
            stmts(draft, body, Some(turning))?;
            end_turns(draft, turning)
        }
        TypedStmt::Return { value, .. } => returns(draft, value),
        TypedStmt::Block { stmts: inner, .. } => stmts(draft, inner, around),
        TypedStmt::Break { .. } => breaks(draft, around),
        TypedStmt::Continue { .. } => continues(draft, around),
        TypedStmt::Update {
            target,
            op,
            value,
            ..
        } => updates(draft, target, *op, value),
        TypedStmt::Foreach {
            slot,
            source,
            body,
            ..
        } => {
            begins(draft, source)?;
            let turning = begin_turns(draft)?;
            tries(draft, source)?;
            draft.go_to_if_not(turning.exit)?;
            prepares(draft, *slot, source)?;
            stmts(draft, body, Some(turning))?;
            end_turns(draft, turning)
        }
        TypedStmt::Match {
            own,
            subject,
            clauses: cs,
            ..
        } => {
            let end = draft.fresh()?;
            expr(draft, subject)?;
            draft.does(Op::Store(*own as u64))?;
            clauses(draft, cs, *own, end, around)?;
            draft.bind(end);
            Ok(())
        }
    }
}

/// What a clause adds: its patterns, its body, and a jump to the end of the match.
#[cycle(stmt)]
fn clause<'a>(
    draft: &mut Draft<'a>,
    c: &'a TypedClause,
    own: u32,
    end: usize,
    around: Option<Turning>,
) -> Result<(), Memory>
    ensures { OnOk result (making_of draft.new ≡ clause_made c.now own end (option_map turns_of around) (making_of draft.old)) }
{
    let body = draft.fresh()?;
    let next = draft.fresh()?;
    patterns(draft, own, body, &c.patterns)?;
    draft.go_to(next)?;
    draft.bind(body);
    stmts(draft, &c.stmts, around)?;
    draft.go_to(end)?;
    draft.bind(next);
    Ok(())
}

/// What clauses add, one behind another.
#[cycle(stmt)]
fn clauses<'a>(
    draft: &mut Draft<'a>,
    cs: &'a [TypedClause],
    own: u32,
    end: usize,
    around: Option<Turning>,
) -> Result<(), Memory>
    ensures { OnOk result (making_of draft.new ≡ clauses_in_turn (map clause_made cs.now) own end (option_map turns_of around) (making_of draft.old)) }
{
    for c in cs {
        clause(draft, c, own, end, around)?;
    }
    Ok(())
}

/// What statements add, one behind another.
#[cycle(stmt)]
pub fn stmts<'a>(
    draft: &mut Draft<'a>,
    ss: &'a [TypedStmt],
    around: Option<Turning>,
) -> Result<(), Memory>
    ensures { OnOk result (making_of draft.new ≡ stmts_in_turn (map stmt_made ss.now) (option_map turns_of around) (making_of draft.old)) }
{
    for s in ss {
        stmt(draft, s, around)?;
    }
    Ok(())
}
