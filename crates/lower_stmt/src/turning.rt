//! The turns of a loop, by its labels.
#![tactic(auto, using(lower_expr::proofs::Drafting::drafting))]

ghost use Rattle.std.specs.Prelude.{◌≡◌, IfOk, OnOk, Option, option_map};
ghost use Rattle.operations.specs.declared.operation.Operation.TheVariants.{Tick};
ghost use Rattle.stack_code.specs.Commands.{GoTo};
ghost use Rattle.lower_model.specs.Making.{add, bind, does, fresh, leave_made, next_label};
ghost use Rattle.lower_expr.specs.Drafts.{making_of};
ghost use Rattle.lower_stmt.specs.Turning.{turns_of};

use bal_base::Memory;
use held_operations::Op;
use lower_expr::Draft;

/// The labels of a loop: where its turns begin, and what stands behind it.
#[derive(Clone, Copy)]
pub struct Turning {
    pub head: usize,
    pub exit: usize,
}

/// A loop begins its turns, each with a tick.
pub fn begin_turns(draft: &mut Draft<'_>) -> Result<Turning, Memory>
    ensures made { OnOk result (making_of draft.new ≡ does Tick (bind (next_label (making_of draft.old)) (fresh (fresh (making_of draft.old))))) }
    ensures head { IfOk result (λ l. l.head ≡ next_label (making_of draft.old)) }
    ensures exit { IfOk result (λ l. l.exit ≡ next_label (fresh (making_of draft.old))) }
{
    let ways = draft.two_labels()?;
    draft.bind(ways.other);
    draft.does(Op::Tick)?;
    Ok(Turning {
        head: ways.other,
        exit: ways.end,
    })
}

/// A turn ends, and the loop with it.
pub fn end_turns(draft: &mut Draft<'_>, l: Turning) -> Result<(), Memory>
    ensures { OnOk result (making_of draft.new ≡ bind l.exit (add (GoTo l.head) (making_of draft.old))) }
{
    draft.go_to(l.head)?;
    draft.bind(l.exit);
    Ok(())
}

/// Behind the innermost loop; where there is none, the draft is spoilt.
pub fn breaks(draft: &mut Draft<'_>, around: Option<Turning>) -> Result<(), Memory>
    ensures { OnOk result (making_of draft.new ≡ leave_made (option_map turns_of around) (λ l. l.exit) (making_of draft.old)) }
{
    match around {
        Some(l) => draft.go_to(l.exit),
        None => {
            draft.spoil();
            Ok(())
        }
    }
}

/// To the next turn of the innermost loop; where there is none, the draft is spoilt.
pub fn continues(draft: &mut Draft<'_>, around: Option<Turning>) -> Result<(), Memory>
    ensures { OnOk result (making_of draft.new ≡ leave_made (option_map turns_of around) (λ l. l.head) (making_of draft.old)) }
{
    match around {
        Some(l) => draft.go_to(l.head),
        None => {
            draft.spoil();
            Ok(())
        }
    }
}
