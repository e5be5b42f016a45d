//! The workers of a function.
#![tactic(auto, using(crate::proofs::Growing::growing))]

ghost use Rattle.std.specs.Prelude.{◌≡◌, ◌++◌, ◌∷◌, [], IfOk, OnOk, false, map, true};
ghost use Rattle.typed_tree.specs.Exprs.{place_of};
ghost use Rattle.typed_tree.specs.Listed.{nothing};
ghost use Rattle.typed_tree.specs.SharedTypes.{sem_of};
ghost use Rattle.worker_pairing.specs.Marks.{expr_marks, member_of, members_of, named_member, nothing_yet, stmts_marks};
ghost use Rattle.worker_members.specs.Held.{member_held, members_held};
ghost use Rattle.worker_members.specs.inner.Hearing.{Grows, Ended, so_far};

use crate::exprs::expr;
use crate::hearing::{Heard, Spot};
use crate::held::{HeldMember, HeldMembers, SaidKind, SaidType};
use crate::stmts::stmts;
use bal_base::{Memory, Place};
use std::alloc::Global;
use typed_tree::{SharedTy, TypedBody, TypedExpr, TypedFunction, TypedStmt, TypedWorker};

/// Behind the initial part, and outside of all else.
fn outside() -> Spot
    ensures { result ≡ record { initial = false; aside = false; trapped = false } }
{
    Spot {
        initial: false,
        aside: false,
        trapped: false,
    }
}

/// In the initial part, and outside of all else.
fn initially() -> Spot
    ensures { result ≡ record { initial = true; aside = false; trapped = false } }
{
    Spot {
        initial: true,
        aside: false,
        trapped: false,
    }
}

/// Nothing was heard yet.
fn unheard<'a>(alloc: Global) -> Heard<'a>
    ensures { so_far result ≡ nothing_yet }
{
    Heard {
        sayings: Vec::new(alloc),
        returns: Vec::new(alloc),
        early: false,
        full: false,
    }
}

/// The worker of which this was heard, with its end, if there was memory for all of it.
fn ended<'a>(
    mut heard: Heard<'a>,
    gives: &'a SharedTy,
    end: Place,
) -> Result<HeldMember<'a>, Memory>
    ensures { IfOk result (λ m. Ended heard.entry gives.now end m) }
{
    heard.say(outside(), SaidKind::End, end, SaidType::Nil);
    if heard.full {
        return Err(Memory);
    }
    Ok(HeldMember {
        sayings: heard.sayings,
        returns: heard.returns,
        result: gives,
    })
}

/// A worker whose statements these are, first the initial ones.
fn of_statements<'a>(
    alloc: Global,
    gives: &'a SharedTy,
    initial: &'a [TypedStmt],
    rest: &'a [TypedStmt],
    end: Place,
) -> Result<HeldMember<'a>, Memory>
    ensures { IfOk result (λ m. member_held m ≡ member_of (sem_of gives.now) (stmts_marks initial.now) (stmts_marks rest.now) end) }
{
    let mut heard = unheard(alloc);
    stmts(&mut heard, initial, initially());
    stmts(&mut heard, rest, outside());
    ended(heard, gives, end)
}

/// The default worker of a function whose body is an expression.
fn of_value<'a>(
    alloc: Global,
    gives: &'a SharedTy,
    value: &'a TypedExpr,
) -> Result<HeldMember<'a>, Memory>
    ensures { IfOk result (λ m. member_held m ≡ member_of (sem_of gives.now) nothing (expr_marks value.now) (place_of value.now)) }
{
    let mut heard = unheard(alloc);
    expr(&mut heard, value, outside());
    ended(heard, gives, value.place())
}

/// A named worker.
fn of_worker<'a>(alloc: Global, w: &'a TypedWorker) -> Result<HeldMember<'a>, Memory>
    ensures { IfOk result (λ m. member_held m ≡ named_member w.now) }
{
    of_statements(alloc, &w.unit.result, &[], &w.stmts, w.close)
}

/// Named workers, behind those that are there.
fn add_named<'a>(
    alloc: Global,
    members: &mut Vec<HeldMember<'a>>,
    workers: &'a [TypedWorker],
) -> Result<(), Memory>
    ensures { OnOk result (map member_held members.new.items ≡ map member_held members.old.items ++ map named_member workers.now) }
{
    for w in workers {
        let member = of_worker(alloc, w)?;
        members.push(member)?;
    }
    Ok(())
}

/// The workers of a function whose body stands between braces.
fn of_block<'a>(
    alloc: Global,
    gives: &'a SharedTy,
    initial: &'a [TypedStmt],
    named: &'a [TypedWorker],
    rest: &'a [TypedStmt],
    end: Place,
) -> Result<HeldMembers<'a>, Memory>
    ensures { IfOk result (λ ms. members_held ms ≡ member_of (sem_of gives.now) (stmts_marks initial.now) (stmts_marks rest.now) end ∷ map named_member named.now) }
{
    let mut workers = Vec::new(alloc);
    let own = of_statements(alloc, gives, initial, rest, end)?;
    workers.push(own)?;
    add_named(alloc, &mut workers, named)?;
    Ok(HeldMembers { workers })
}

/// The one worker of a function whose body is an expression.
fn of_expression<'a>(
    alloc: Global,
    gives: &'a SharedTy,
    value: &'a TypedExpr,
) -> Result<HeldMembers<'a>, Memory>
    ensures { IfOk result (λ ms. members_held ms ≡ member_of (sem_of gives.now) nothing (expr_marks value.now) (place_of value.now) ∷ []) }
{
    let mut workers = Vec::new(alloc);
    let own = of_value(alloc, gives, value)?;
    workers.push(own)?;
    Ok(HeldMembers { workers })
}

/// The workers of a function, the default one first, with the events and the returns of each in text order. Takes time that grows
/// with the nodes of the tree. Wants memory alone.
pub fn members<'a>(alloc: Global, f: &'a TypedFunction) -> Result<HeldMembers<'a>, Memory>
    ensures { IfOk result (λ ms. members_held ms ≡ members_of f.now) }
{
    let gives = &f.unit.result;
    match &f.body {
        TypedBody::Block {
            initial,
            workers,
            rest,
            close,
            ..
        } => of_block(alloc, gives, initial, workers, rest, *close),
        TypedBody::Expr { value } => of_expression(alloc, gives, value),
    }
}
