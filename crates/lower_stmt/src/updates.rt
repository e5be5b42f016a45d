//! What assignments with an operator add.
#![tactic(auto, using(lower_expr::proofs::Drafting::drafting))]

ghost use Rattle.std.specs.Prelude.{◌≡◌, OnOk};
ghost use Rattle.eval_model.specs.Statements.{reads_member as reads_member_of, sets_member as sets_member_of};
ghost use Rattle.held_operations.specs.Operation.{operation_of};
ghost use Rattle.lower_expr.specs.Drafts.{making_of};
ghost use Rattle.lower_model.specs.Making.{all_do, update_made};

use bal_base::Memory;
use held_operations::Op;
use lower_expr::{Draft, expr, gets, operator};
use typed_tree::{Operator, Read, TypedExpr, UpdateTarget};

/// A member is read, whose container and key are kept.
fn reads_member<'a>(draft: &mut Draft<'a>, how: &'a Read, own: u32) -> Result<(), Memory>
    ensures { OnOk result (making_of draft.new ≡ all_do (reads_member_of how.now own) (making_of draft.old)) }
{
    let (container, key) = (own as u64, own as u64 + 1);
    match how {
        Read::Item => draft.dos(&[Op::Load(container), Op::Load(key), Op::GetItem]),
        Read::Key => draft.dos(&[Op::Load(container), Op::Load(key), Op::GetKey]),
        Read::Char => draft.dos(&[Op::Load(container), Op::Load(key), Op::GetChar]),
        Read::Field(name) => draft.dos(&[Op::Load(container), Op::GetField(name)]),
        Read::OptionalField(name) => draft.dos(&[Op::Load(container), Op::GetOptional(name)]),
    }
}

/// A member is set.
fn sets_member<'a>(how: &Read) -> Op<'a>
    ensures { operation_of result ≡ sets_member_of how.now }
{
    match how {
        Read::Item | Read::Char => Op::SetItem,
        Read::Key | Read::Field(_) | Read::OptionalField(_) => Op::SetKey,
    }
}

/// An assignment with an operator.
pub fn updates<'a>(
    draft: &mut Draft<'a>,
    target: &'a UpdateTarget,
    op: Operator,
    value: &'a TypedExpr,
) -> Result<(), Memory>
    ensures { OnOk result (making_of draft.new ≡ update_made target.now op value.now (making_of draft.old)) }
{
    match target {
        UpdateTarget::Local { slot, narrowed, ty } => {
            gets(draft, *slot, *narrowed, ty)?;
            expr(draft, value)?;
            operator(draft, op)?;
            draft.does(Op::Store(*slot as u64))
        }
        UpdateTarget::Variable(m) => {
            draft.does(Op::LoadModule(*m))?;
            expr(draft, value)?;
            operator(draft, op)?;
            draft.does(Op::StoreModule(*m))
        }
        UpdateTarget::Member {
            own,
            read: how,
            container,
            key,
            ..
        } => {
            let slot = *own as u64;
            expr(draft, container)?;
            draft.does(Op::Store(slot))?;
            expr(draft, key)?;
            draft.does(Op::Store(slot + 1))?;
            draft.dos(&[Op::Load(slot), Op::Load(slot + 1)])?;
            reads_member(draft, how, *own)?;
            expr(draft, value)?;
            operator(draft, op)?;
            draft.does(sets_member(how))
        }
    }
}
