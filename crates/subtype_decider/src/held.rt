//! A question that is held to be empty, and how far this is judged.
ghost use Rattle.std.specs.Prelude.{◌≡◌, ◌<◌, IfOk, length};
ghost use Rattle.bal_base.specs.Stops.{IfFault};
ghost use Rattle.type_diagrams.specs.Tables.{condition};
ghost use Rattle.type_diagrams.specs.Whole.{Extends};
ghost use Rattle.subtype_decider.specs.Working.{CanJudge, HasTooMany, NextSays, Says};

use crate::call::Call;
use crate::settles::Settles;
use crate::table::Table;
use crate::way::Way;
use bal_base::Stop;
use type_diagrams::{Diagrams, Turn};
use type_model::TypeLimit;

/// A question that the table holds to be empty, and on which a call works.
#[derive(Drop)]
pub struct Held {
    pub question: u32,
    /// Its paths.
    pub ways: Vec<Way>,
    /// The place of the first path that isn't judged yet.
    pub next: usize,
}

impl Held {
    /// Judges the paths from the next one on, up to one that has a shape or asks a question.
    pub(crate) fn judge<S: Settles>(
        &mut self,
        call: &Call<S>,
        diagrams: &mut Diagrams,
        table: &Table,
    ) -> Result<Turn, Stop<TypeLimit>>
        requires { CanJudge call.now.env.now diagrams.old table.now self.old }
        ensures extends { Extends (length call.now.env.now) diagrams.old diagrams.new }
        ensures same { self.new ≡ record self.old { next = self.new.next } }
        ensures can { CanJudge call.now.env.now diagrams.new table.now self.new }
        ensures says { IfOk result (Says call.now.env.now diagrams.new table.now self.new) }
        ensures limit { IfFault result (HasTooMany (condition diagrams.new self.new.question)) }
    {
        while self.next < self.ways.len() {
            match self.settle_next(call, diagrams, table)? {
                Turn::Empty => self.next += 1,
                Turn::Ask(question) => return Ok(Turn::Ask(question)),
                Turn::Shape(shape) => return Ok(Turn::Shape(shape)),
            }
        }
        Ok(Turn::Empty)
    }

    /// What is said of the next path.
    fn settle_next<S: Settles>(
        &self,
        call: &Call<S>,
        diagrams: &mut Diagrams,
        table: &Table,
    ) -> Result<Turn, Stop<TypeLimit>>
        requires can { CanJudge call.now.env.now diagrams.old table.now self.now }
        requires some { self.now.next < length self.now.ways.items }
        ensures extends { Extends (length call.now.env.now) diagrams.old diagrams.new }
        ensures can { CanJudge call.now.env.now diagrams.new table.now self.now }
        ensures says { IfOk result (NextSays call.now.env.now diagrams.new table.now self.now) }
        ensures limit { IfFault result (HasTooMany (condition diagrams.new self.now.question)) }
    {
        let way = &self.ways[self.next];
        let kind = way.kind;
        call.settles
            .settle(call.alloc, call.env, diagrams, kind, &way.path, table)
    }
}
