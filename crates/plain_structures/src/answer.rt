//! What came of a row, as what is answered for an operation.
ghost use Rattle.plain_run.specs.declared.held.Common.{Common as CommonOf};
ghost use Rattle.plain_run.specs.declared.held.World.{World as WorldOf};
ghost use Rattle.plain_run.specs.Effects.{Stays};
ghost use Rattle.plain_run.specs.Held.{with_world};
ghost use Rattle.plain_structures.specs.Rows.{IsAnswerFor, IsAnswerOf, RowStays, TriedStays};

use plain_run::{Came, Performed, lifted};

/// What came, where something did, as what is answered.
pub fn performed(came: Option<Came>) -> Performed
    ensures row { (c : CommonOf) → IsAnswerFor came c result }
    ensures stays { (old : CommonOf) (w : WorldOf) → RowStays old.world w came → Stays old (with_world old w) result }
{
    match came {
        None => Performed::Stuck,
        Some(came) => Performed::Done(lifted(came)),
    }
}

/// What comes of a row that asks questions of types.
#[derive(Drop)]
pub enum Tried {
    /// This comes.
    Came(Came),
    /// The row says nothing of these operands.
    Stuck,
    /// It is not told, since a question isn't decided.
    Undecided,
}

/// What comes of a row that asks questions of types, as what is answered.
pub fn answered(tried: Tried) -> Performed
    ensures row { (c : CommonOf) → IsAnswerOf tried c result }
    ensures stays { (old : CommonOf) (w : WorldOf) → TriedStays old.world w tried → Stays old (with_world old w) result }
{
    match tried {
        Tried::Came(came) => Performed::Done(lifted(came)),
        Tried::Stuck => Performed::Stuck,
        Tried::Undecided => Performed::Undecided,
    }
}
