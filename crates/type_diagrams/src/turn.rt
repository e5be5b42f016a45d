//! What a table of questions tells, and what can be said of a path against it.
ghost use Rattle.std.specs.Option.{option_copied};
ghost use Rattle.std.specs.Prelude.{option_map};
ghost use Rattle.type_diagrams.specs.Kept.{Tells};

use witness::Witness;

/// How many questions a call may lead to.
pub const MOST_QUESTIONS: usize = 65_536;

/// How many arrows a path may want.
pub const MOST_ARROWS: usize = 12;

/// What is said of a path against a table of questions.
#[derive(Drop)]
pub enum Turn {
    /// A shape of the path.
    Shape(Witness),
    /// For each shape of the path, some question that the table holds to be empty has a lower shape.
    Empty,
    /// A member question of the path that the table doesn't know.
    Ask(u32),
}

/// A table of questions. A question is the number of a diagram; the table knows a shape of it, or holds
/// it to be empty.
pub trait Member {
    ghost use Rattle.std.specs.Prelude.{ℕ, List, Option};
    ghost use Rattle.bal_base.specs.declared.shape.Shape.{Shape};

    /// The questions that the table knows, each with a shape or held to be empty.
    ghost kept: { Self → List (ℕ × Option Shape) };

    /// What the table keeps for the question: a shape of it, that it is held to be empty, or nothing.
    /// Takes no memory.
    fn seen(&self, question: u32) -> Option<Option<&Witness>>
        ensures { Tells (kept self.now) question (option_map option_copied result) };
}
