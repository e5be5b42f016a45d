//! Pairs of arguments and answers that all wanted arrows allow.
ghost use Rattle.std.specs.Prelude.{◌≡◌, [], false, length, All, IfOk, IfSome, List, ℕ};
ghost use Rattle.type_diagrams.specs.Tables.{IsDiagram, condition};
ghost use Rattle.type_diagrams.specs.Turns.{IsSound};
ghost use Rattle.type_diagrams.specs.Whole.{Extends};
ghost use Rattle.empty_arrow.specs.Arrows.{IsArrow};
ghost use Rattle.empty_arrow.specs.Pairs.{AreArguments, IsArguments, TellsPair};
ghost use Rattle.bal_base.specs.declared.shape.Shape.{List as ListOf};
ghost use Rattle.type_model.specs.declared.atoms.AtomDef.{AtomDef};

use crate::arrows::arrow_of;
use crate::questions::{outside, within};
use bal_base::{Case, Memory, Shape, Shapes};
use type_diagrams::{Context, Diagrams, Finding, Member, look_up};

/// What is sought of a pair.
#[derive(Clone, Copy)]
pub(crate) struct Sought {
    /// The diagram of the arguments.
    pub(crate) args: u32,
    /// The diagram of the result.
    pub(crate) result: u32,
    /// Whether the answer may be a failure.
    pub(crate) may_fail: bool,
}

/// What is found.
#[derive(Drop)]
pub(crate) enum Found {
    /// Such a pair.
    Pair(Case),
    /// For each such pair, its arguments or its result are in a question that the table holds to be empty.
    Empty,
    /// A question about arguments or results that the table doesn't know.
    Ask(u32),
}

/// A pair that is sought and that these arrows allow. Each of them either doesn't take the arguments, or
/// gives the result.
pub(crate) fn find_pair<M: Member>(
    context: &Context<'_, M>,
    dia: &mut Diagrams,
    arrows: &[u32],
    sought: Sought,
) -> Result<Found, Memory>
    requires args { IsDiagram dia.old sought.args }
    requires results { IsDiagram dia.old sought.result }
    requires lists { AreArguments context.now.env.now (condition dia.old sought.args) }
    requires arrows { All (IsArrow context.now.env.now) arrows.now }
    requires sound { All (IsSound context.now.env.now dia.old) (M.kept context.now.m.now) }
    ensures extends { Extends (length context.now.env.now) dia.old dia.new }
    ensures tells { IfOk result (TellsPair context.now.env.now dia.new (M.kept context.now.m.now) (condition dia.old sought.args) (condition dia.old sought.result) sought.may_fail arrows.now) }
{
    if let Some(found) = settled(dia, sought, context.m) {
        return Ok(found);
    }
    match arrows {
        [] => kept_pair(context, dia, sought),
        [first, rest @ ..] => {
            let arrow = arrow_of(context.env.defs(), *first);
            let args = outside(context.env, dia, sought.args, arrow.args)?;
            let left = Sought { args, ..sought };
            match find_pair(context, dia, rest, left)? {
                Found::Empty => {}
                Found::Pair(case) => return Ok(Found::Pair(case)),
                Found::Ask(question) => return Ok(Found::Ask(question)),
            }
            let result = within(context.env, dia, sought.result, arrow.result)?;
            let taken = Sought {
                result,
                may_fail: false,
                ..sought
            };
            find_pair(context, dia, rest, taken)
        }
    }
}

/// What the table tells already, whatever the arrows are: that the arguments or the results are held to be
/// empty, or that it doesn't know one of these questions.
fn settled<M: Member>(dia: &Diagrams, sought: Sought, m: &M) -> Option<Found>
    requires args { IsDiagram dia.now sought.args }
    requires results { IsDiagram dia.now sought.result }
    ensures { IfSome result (λ found. (env : List AtomDef) (arrows : List ℕ) → TellsPair env dia.now (M.kept m.now) (condition dia.now sought.args) (condition dia.now sought.result) sought.may_fail arrows found) }
{
    match m.seen(sought.args) {
        None => return Some(Found::Ask(sought.args)),
        Some(None) => return Some(Found::Empty),
        Some(Some(_)) => {}
    }
    if sought.may_fail {
        return None;
    }
    match m.seen(sought.result) {
        None => Some(Found::Ask(sought.result)),
        Some(None) => Some(Found::Empty),
        Some(Some(_)) => None,
    }
}

/// A pair of copies of kept shapes.
fn kept_pair<M: Member>(
    context: &Context<'_, M>,
    dia: &Diagrams,
    sought: Sought,
) -> Result<Found, Memory>
    requires args { IsDiagram dia.now sought.args }
    requires results { IsDiagram dia.now sought.result }
    requires lists { AreArguments context.now.env.now (condition dia.now sought.args) }
    requires sound { All (IsSound context.now.env.now dia.now) (M.kept context.now.m.now) }
    ensures { IfOk result (TellsPair context.now.env.now dia.now (M.kept context.now.m.now) (condition dia.now sought.args) (condition dia.now sought.result) sought.may_fail []) }
{
    let args = match look_up(context.m, sought.args)? {
        Finding::Part(part) => items(part.copied(context.alloc)?),
        Finding::Held => return Ok(Found::Empty),
        Finding::Unknown => return Ok(Found::Ask(sought.args)),
    };
    if sought.may_fail {
        return Ok(Found::Pair(Case { args, result: None }));
    }
    match look_up(context.m, sought.result)? {
        Finding::Part(part) => Ok(Found::Pair(Case {
            args,
            result: Some(part.copied(context.alloc)?),
        })),
        Finding::Held => Ok(Found::Empty),
        Finding::Unknown => Ok(Found::Ask(sought.result)),
    }
}

/// The items of an unmarked list.
fn items(arguments: Shape) -> Shapes
    requires { IsArguments arguments }
    ensures { arguments ≡ ListOf false result }
{
    match arguments {
        Shape::List { items, .. } => items,
        Shape::Nil | Shape::Bool(_) | Shape::Int(_) | Shape::Str(_) => unreachable!(),
        Shape::Mapping { .. } | Shape::Error { .. } => unreachable!(),
        Shape::Function { .. } | Shape::Future { .. } => unreachable!(),
    }
}
