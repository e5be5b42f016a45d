//! What loops add beside their statements.
#![tactic(auto, using(lower_expr::proofs::Drafting::drafting))]

ghost use Rattle.std.specs.Prelude.{◌≡◌, OnOk};
ghost use Rattle.eval_model.specs.Loops.{raises as raises_of};
ghost use Rattle.lower_expr.specs.Drafts.{making_of};
ghost use Rattle.lower_model.specs.Making.{all_do, begin_made, prepare_made, tries_made};

use bal_base::Memory;
use held_operations::Op;
use lower_expr::{Draft, expr};
use operations::LibraryCall;
use typed_tree::{RangeEnd, Source};

/// The int in the slot is one more.
fn raises<'a>(draft: &mut Draft<'a>, slot: u64) -> Result<(), Memory>
    ensures { OnOk result (making_of draft.new ≡ all_do (raises_of slot) (making_of draft.old)) }
{
    draft.dos(&[Op::Load(slot), Op::Int(1), Op::Add, Op::Store(slot)])
}

/// What stands before the first turn.
pub fn begins<'a>(draft: &mut Draft<'a>, source: &'a Source) -> Result<(), Memory>
    ensures { OnOk result (making_of draft.new ≡ begin_made source.now (making_of draft.old)) }
{
    match source {
        Source::Range {
            own,
            end: RangeEnd::Included,
            from,
            to,
        } => {
            let slot = *own as u64;
            expr(draft, from)?;
            draft.does(Op::Store(slot))?;
            expr(draft, to)?;
            draft.does(Op::Store(slot + 1))?;
            draft.dos(&[
                Op::Load(slot),
                Op::Load(slot + 1),
                Op::LessEqual,
                Op::Store(slot + 2),
            ])
        }
        Source::Range {
            own,
            end: RangeEnd::Excluded,
            from,
            to,
        } => {
            let slot = *own as u64;
            expr(draft, from)?;
            draft.does(Op::Store(slot))?;
            expr(draft, to)?;
            draft.does(Op::Store(slot + 1))
        }
        Source::List { own, list } => {
            let slot = *own as u64;
            expr(draft, list)?;
            draft.dos(&[Op::Store(slot), Op::Int(-1), Op::Store(slot + 1)])
        }
    }
}

/// Whether there is a further round.
pub fn tries<'a>(draft: &mut Draft<'a>, source: &'a Source) -> Result<(), Memory>
    ensures { OnOk result (making_of draft.new ≡ tries_made source.now (making_of draft.old)) }
{
    match source {
        Source::Range {
            own,
            end: RangeEnd::Included,
            ..
        } => draft.dos(&[Op::Load(*own as u64 + 2)]),
        Source::Range {
            own,
            end: RangeEnd::Excluded,
            ..
        } => draft.dos(&[Op::Load(*own as u64), Op::Load(*own as u64 + 1), Op::Less]),
        Source::List { own, .. } => {
            let slot = *own as u64;
            raises(draft, slot + 1)?;
            let length = Op::Library {
                call: LibraryCall::ListLength,
                atom: None,
                count: 1,
            };
            draft.dos(&[Op::Load(slot + 1), Op::Load(slot), length, Op::Less])
        }
    }
}

/// The variable gets its value.
pub fn prepares<'a>(draft: &mut Draft<'a>, slot: u32, source: &'a Source) -> Result<(), Memory>
    ensures { OnOk result (making_of draft.new ≡ prepare_made slot source.now (making_of draft.old)) }
{
    let variable = slot as u64;
    match source {
        Source::Range {
            own,
            end: RangeEnd::Included,
            ..
        } => {
            let next = *own as u64;
            draft.dos(&[
                Op::Load(next),
                Op::Store(variable),
                Op::Load(next),
                Op::Load(next + 1),
                Op::Less,
                Op::Store(next + 2),
                Op::Load(next + 2),
            ])?;
            let ways = draft.part()?;
            raises(draft, next)?;
            draft.otherwise(ways)?;
            draft.join(ways);
            Ok(())
        }
        Source::Range {
            own,
            end: RangeEnd::Excluded,
            ..
        } => {
            draft.dos(&[Op::Load(*own as u64), Op::Store(variable)])?;
            raises(draft, *own as u64)
        }
        Source::List { own, .. } => draft.dos(&[
            Op::Load(*own as u64),
            Op::Load(*own as u64 + 1),
            Op::GetItem,
            Op::Store(variable),
        ]),
    }
}
