//! The maps of a unit.

ghost use Rattle.std.specs.Prelude.{◌≡◌, IfOk, OnOk};
ghost use Rattle.lower_model.specs.Making.{unit_made, unmade};
ghost use Rattle.lower_expr.specs.Drafts.{making_of};
ghost use Rattle.lower_stmt.specs.Bodies.{body_of};
ghost use Rattle.map_model.specs.Whole.{begins_with, points, tallies};
ghost use Rattle.map_traces.specs.Events.{known_of, tracing_of};
ghost use Rattle.map_traces.specs.Tracing.{untraced};
ghost use Rattle.map_traces.specs.Trees.{unit_traced};
ghost use Rattle.code_maps.specs.Given.{Adds, known_points};

use crate::player::Player;
use bal_base::Memory;
use lower_expr::Draft;
use lower_stmt::Body;
use map_traces::{Around, Trace};
use std::alloc::Global;

/// What a unit tells of its operands.
pub fn traced<'a>(alloc: Global, around: Around<'a>, body: Body<'a>) -> Result<Trace<'a>, Memory>
    ensures { IfOk result (λ t. tracing_of t ≡ unit_traced (known_of around.entry) (body_of body.entry) untraced) }
{
    let mut trace = Trace {
        events: Vec::new(alloc),
    };
    map_traces::unit(&mut trace, around, body)?;
    Ok(trace)
}

/// What is added for a unit alone.
fn drafted<'a>(alloc: Global, body: Body<'a>) -> Result<Draft<'a>, Memory>
    ensures { IfOk result (λ d. making_of d ≡ unit_made (body_of body.entry) unmade) }
{
    let mut draft = Draft {
        steps: Vec::new(alloc),
        labels: Vec::new(alloc),
        sound: true,
    };
    lower_stmt::unit(&mut draft, body)?;
    Ok(draft)
}

/// What was told of a unit is played with its commands.
fn plays<'a>(
    player: &mut Player<'a>,
    alloc: Global,
    trace: &Trace<'a>,
    draft: &Draft<'a>,
    body: Body<'a>,
    workers: usize,
) -> Result<(), Memory>
    ensures { OnOk result (Adds (points (tracing_of trace.now).places (tallies workers (begins_with workers (body_of body.entry)) (making_of draft.now).steps)) player.old player.new) }
{
    player.begin(alloc, workers, body)?;
    player.play(alloc, workers, &draft.steps, &trace.events)?;
    Ok(())
}

/// The maps of a unit, in a function of so many workers, in time that grows with what the unit tells and with what the maps hold.
pub fn unit<'a>(
    player: &mut Player<'a>,
    alloc: Global,
    around: Around<'a>,
    body: Body<'a>,
    workers: usize,
) -> Result<(), Memory>
    ensures { OnOk result (Adds (known_points (known_of around.entry) workers (body_of body.entry)) player.old player.new) }
{
    let trace = traced(alloc, around, body)?;
    let draft = drafted(alloc, body)?;
    plays(player, alloc, &trace, &draft, body, workers)
}
