//! What the patterns of a match add.
#![tactic(auto, using(lower_expr::proofs::Drafting::drafting))]

ghost use Rattle.std.specs.Prelude.{◌≡◌, OnOk};
ghost use Rattle.lower_expr.specs.Drafts.{making_of};
ghost use Rattle.lower_model.specs.Making.{pattern_made, patterns_made};

use bal_base::Memory;
use held_operations::{Op, TestedType};
use lower_expr::Draft;
use operations::Constant;
use typed_tree::TypedPattern;

/// A pattern that fits leads to the body.
fn pattern<'a>(
    draft: &mut Draft<'a>,
    own: u32,
    body: usize,
    value: &'a Option<Constant>,
) -> Result<(), Memory>
    ensures { OnOk result (making_of draft.new ≡ pattern_made own body value.now (making_of draft.old)) }
{
    match value {
        None => draft.go_to(body),
        Some(c) => {
            let next = draft.fresh()?;
            draft.dos(&[Op::Load(own as u64), Op::Test(TestedType::Single(c))])?;
            draft.go_to_if_not(next)?;
            draft.go_to(body)?;
            draft.bind(next);
            Ok(())
        }
    }
}

/// Patterns, one behind another.
pub fn patterns<'a>(
    draft: &mut Draft<'a>,
    own: u32,
    body: usize,
    ps: &'a [TypedPattern],
) -> Result<(), Memory>
    ensures { OnOk result (making_of draft.new ≡ patterns_made own body ps.now (making_of draft.old)) }
{
    for p in ps {
        pattern(draft, own, body, &p.value)?;
    }
    Ok(())
}
