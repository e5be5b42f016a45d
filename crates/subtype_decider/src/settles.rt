//! What settles the paths of each kind.
ghost use Rattle.std.specs.Prelude.{◌≡◌, IfOk, OnOk, length};
ghost use Rattle.bal_base.specs.Stops.{IfFault};
ghost use Rattle.type_model.specs.declared.answers.TypeLimit.TheVariants.{Arrows};
ghost use Rattle.type_diagrams.specs.Turns.{IsReady, Turns};
ghost use Rattle.type_diagrams.specs.Whole.{Extends};
ghost use Rattle.subtype_decider.specs.Leads.{WantsTooMany};

use crate::table::Table;
use bal_base::Stop;
use std::alloc::Global;
use type_diagrams::{Diagrams, Kind, Path, Turn};
use type_model::{TypeEnv, TypeLimit};

/// What settles a path of each kind against the table of questions.
pub trait Settles: Drop {
    /// A shape of the path, or that each shape of it has a lower one in a question that the table holds to
    /// be empty, or a member question of the path that the table doesn't know. `Arrows` comes exactly where
    /// a path of functions wants more than 12 arrows, and `Questions` never.
    fn settle(
        &self,
        alloc: Global,
        env: &TypeEnv,
        diagrams: &mut Diagrams,
        kind: Kind,
        path: &Path,
        table: &Table,
    ) -> Result<Turn, Stop<TypeLimit>>
        requires { IsReady env.now diagrams.old table.now kind path.now }
        ensures extends { Extends (length env.now) diagrams.old diagrams.new }
        ensures turn { IfOk result (Turns env.now diagrams.new table.now kind path.now) }
        ensures answered { OnOk result (¬ WantsTooMany kind path.now) }
        ensures limit { IfFault result (λ limit. (limit ≡ Arrows) × WantsTooMany kind path.now) };
}
