//! What units add to code that is being made.
#![tactic(auto, using(lower_expr::proofs::Drafting::drafting))]

ghost use Rattle.std.specs.Prelude.{◌≡◌, OnOk};
ghost use Rattle.operations.specs.declared.operation.Operation.TheVariants.{Return};
ghost use Rattle.typed_tree.specs.Units.{OfFunction};
ghost use Rattle.lower_expr.specs.Drafts.{making_of};
ghost use Rattle.lower_model.specs.Making.{block_made, body_made, does, end_made, expr_made, initial_made, initials_made, named_made, unit_made};
ghost use Rattle.lower_stmt.specs.Bodies.{body_of};

use crate::lower_stmt::stmts;
use bal_base::Memory;
use held_operations::Op;
use lower_expr::{Draft, expr};
use typed_tree::{Initial, TypedBody, TypedExpr, TypedStmt, TypedWorker};

/// What a unit does: the body of a function, a worker, the value of an anonymous function, or the initial values of module
/// variables.
#[derive(Clone, Copy)]
pub enum Body<'a> {
    Function(&'a TypedBody),
    Worker(&'a TypedWorker),
    Anonymous(&'a TypedExpr),
    Initialiser(&'a [Initial]),
}

/// Nil is returned at an end that is reached; where it isn't, it goes round and round.
fn ends(draft: &mut Draft<'_>, reached: bool) -> Result<(), Memory>
    ensures { OnOk result (making_of draft.new ≡ end_made reached (making_of draft.old)) }
{
    if reached {
        return draft.dos(&[Op::Nil, Op::Return]);
    }
    let round = draft.fresh()?;
    draft.bind(round);
    draft.does(Op::Tick)?;
    draft.go_to(round)
}

/// Named workers are started, where there are any.
fn named(draft: &mut Draft<'_>, workers: &[TypedWorker]) -> Result<(), Memory>
    ensures { OnOk result (making_of draft.new ≡ named_made workers.now (making_of draft.old)) }
{
    match workers {
        [] => Ok(()),
        [_, ..] => draft.does(Op::Workers),
    }
}

/// A value is returned.
fn value<'a>(draft: &mut Draft<'a>, e: &'a TypedExpr) -> Result<(), Memory>
    ensures { OnOk result (making_of draft.new ≡ does Return (expr_made e.now (making_of draft.old))) }
{
    expr(draft, e)?;
    draft.does(Op::Return)
}

/// The initial value of a module variable.
fn initial<'a>(draft: &mut Draft<'a>, i: &'a Initial) -> Result<(), Memory>
    ensures { OnOk result (making_of draft.new ≡ initial_made i.now (making_of draft.old)) }
{
    expr(draft, &i.value)?;
    draft.does(Op::StoreModule(i.variable))
}

/// Initial values, one behind another.
fn initials<'a>(draft: &mut Draft<'a>, is: &'a [Initial]) -> Result<(), Memory>
    ensures { OnOk result (making_of draft.new ≡ initials_made is.now (making_of draft.old)) }
{
    for i in is {
        initial(draft, i)?;
    }
    Ok(())
}

/// The statements of a body, and its end.
fn statements<'a>(draft: &mut Draft<'a>, ss: &'a [TypedStmt], reached: bool) -> Result<(), Memory>
    ensures { OnOk result (making_of draft.new ≡ end_made reached (block_made ss.now (making_of draft.old))) }
{
    stmts(draft, ss, None)?;
    ends(draft, reached)
}

/// The body of a function.
fn function<'a>(draft: &mut Draft<'a>, body: &'a TypedBody) -> Result<(), Memory>
    ensures { OnOk result (making_of draft.new ≡ body_made (OfFunction body.now) (making_of draft.old)) }
{
    match body {
        TypedBody::Block {
            initial,
            workers,
            rest,
            ends: reached,
            ..
        } => {
            stmts(draft, initial, None)?;
            named(draft, workers)?;
            statements(draft, rest, *reached)
        }
        TypedBody::Expr { value: e } => value(draft, e),
    }
}

/// What a unit adds: a tick, its body, and its end, in time that grows with the nodes of the tree. It answers want of memory alone;
/// where a statement leaves a loop and there is none, the draft is spoilt.
pub fn unit<'a>(draft: &mut Draft<'a>, body: Body<'a>) -> Result<(), Memory>
    ensures { OnOk result (making_of draft.new ≡ unit_made (body_of body.entry) (making_of draft.old)) }
{
    draft.does(Op::Tick)?;
    match body {
        Body::Function(b) => function(draft, b),
        Body::Worker(w) => statements(draft, &w.stmts, w.ends),
        Body::Anonymous(e) => value(draft, e),
        Body::Initialiser(is) => {
            initials(draft, is)?;
            ends(draft, true)
        }
    }
}
