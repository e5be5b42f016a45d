//! Function paths.
ghost use Rattle.std.specs.Prelude.{◌≡◌, ◌<◌, ◌≤◌, true, length, All, IfOk, OnOk};
ghost use Rattle.bal_base.specs.Stops.{IfFault};
ghost use Rattle.type_model.specs.declared.answers.TypeLimit.TheVariants.{Arrows};
ghost use Rattle.type_diagrams.specs.declared.kind.Kind.TheVariants.{Function as Functions};
ghost use Rattle.type_diagrams.specs.Kinds.{the_mark};
ghost use Rattle.type_diagrams.specs.Members.{atoms_in};
ghost use Rattle.type_diagrams.specs.Questions.{lists};
ghost use Rattle.type_diagrams.specs.Reach.{most_arrows};
ghost use Rattle.type_diagrams.specs.Turns.{IsReady, IsSound, Turns};
ghost use Rattle.type_diagrams.specs.Whole.{Extends};
ghost use Rattle.empty_arrow.specs.Arrows.{IsArrow};
ghost use Rattle.empty_arrow.specs.Graphs.{IsBase, TellsGraph, arguments_sought, results_sought};
ghost use Rattle.empty_arrow.specs.Pairs.{TellsPair};

use crate::arrows::{any_isolated, arrow_of, is_free};
use crate::pairs::{Found, Sought, find_pair};
use crate::questions::{outside, within};
use bal_base::{Graph, Memory, Shape, Stop};
use std::alloc::Global;
use type_diagrams::{Context, Diagrams, MOST_ARROWS, Member, Path, Turn};
use type_model::{BasicSet, SemType, TypeEnv, TypeLimit};
use witness::Witness;

/// A shape of a function path, that there is none, or a question about arguments or results of a pair. Each
/// unwanted arrow is avoided by a pair of its own; but where no wanted arrow has isolated functions alone,
/// the function isn't isolated, and so is in no such arrow. `Arrows` comes exactly where the path wants more
/// than 12 arrows. No function is marked.
pub fn fun_shape<M: Member>(
    alloc: Global,
    env: &TypeEnv,
    dia: &mut Diagrams,
    path: &Path,
    m: &M,
) -> Result<Turn, Stop<TypeLimit>>
    requires { IsReady env.now dia.old (M.kept m.now) Functions path.now }
    ensures extends { Extends (length env.now) dia.old dia.new }
    ensures turns { IfOk result (Turns env.now dia.new (M.kept m.now) Functions path.now) }
    ensures few { OnOk result (length (atoms_in path.now.pos) ≤ most_arrows) }
    ensures only { IfFault result (λ limit. limit ≡ Arrows) }
    ensures limit { IfFault result (λ _. most_arrows < length (atoms_in path.now.pos)) }
{
    let context = Context { alloc, env, m };
    let wanted = path.wanted(alloc)?;
    if wanted.len() > MOST_ARROWS {
        return Err(Stop::Fault(TypeLimit::Arrows));
    }
    let unwanted = path.unwanted(alloc)?;
    let base = base_of(env, dia)?;
    if path.is_marked() {
        return Ok(Turn::Empty);
    }
    let turn = graph(&context, dia, base, &wanted, &unwanted)?;
    Ok(turn)
}

/// The diagrams with which pairs begin.
#[derive(Clone, Copy)]
struct Base {
    /// All unmarked lists.
    arguments: u32,
    /// All shapes.
    results: u32,
}

fn base_of(env: &TypeEnv, dia: &mut Diagrams) -> Result<Base, Memory>
    ensures extends { Extends (length env.now) dia.old dia.new }
    ensures base { IfOk result (λ b. IsBase env.now dia.new b.arguments b.results) }
{
    let results = dia.every()?;
    let lists = within(env, dia, results, &SemType::Basic(BasicSet::ListAll))?;
    let arguments = outside(env, dia, lists, &SemType::Basic(BasicSet::Readonly))?;
    Ok(Base { arguments, results })
}

/// A function with a pair for each unwanted arrow that needs one; or that the table has none for an arrow,
/// or a question about it.
fn graph<M: Member>(
    context: &Context<'_, M>,
    dia: &mut Diagrams,
    base: Base,
    wanted: &[u32],
    unwanted: &[u32],
) -> Result<Turn, Memory>
    requires base { IsBase context.now.env.now dia.old base.arguments base.results }
    requires wanted { All (IsArrow context.now.env.now) wanted.now }
    requires unwanted { All (IsArrow context.now.env.now) unwanted.now }
    requires sound { All (IsSound context.now.env.now dia.old) (M.kept context.now.m.now) }
    ensures few { OnOk result (length context.now.env.now ≤ the_mark) }
    ensures extends { Extends (length context.now.env.now) dia.old dia.new }
    ensures tells { IfOk result (TellsGraph context.now.env.now dia.new (M.kept context.now.m.now) wanted.now unwanted.now) }
{
    let defs = context.env.defs();
    let isolated = any_isolated(defs, wanted);
    let mut cases = Vec::new(context.alloc);
    for atom in unwanted {
        if is_free(defs, *atom, isolated) {
            continue;
        }
        let case = match avoiding_pair(context, dia, base, wanted, *atom)? {
            Found::Pair(case) => case,
            Found::Empty => return Ok(Turn::Empty),
            Found::Ask(question) => return Ok(Turn::Ask(question)),
        };
        cases.push(case)?;
    }
    let function = Shape::Function {
        isolated,
        graph: Graph::of(cases),
    };
    Ok(Turn::Shape(Witness::whole(context.alloc, function)?))
}

/// A pair that all wanted arrows allow, and the unwanted one doesn't.
fn avoiding_pair<M: Member>(
    context: &Context<'_, M>,
    dia: &mut Diagrams,
    base: Base,
    wanted: &[u32],
    unwanted: u32,
) -> Result<Found, Memory>
    requires base { IsBase context.now.env.now dia.old base.arguments base.results }
    requires wanted { All (IsArrow context.now.env.now) wanted.now }
    requires unwanted { IsArrow context.now.env.now unwanted }
    requires sound { All (IsSound context.now.env.now dia.old) (M.kept context.now.m.now) }
    ensures extends { Extends (length context.now.env.now) dia.old dia.new }
    ensures tells { IfOk result (TellsPair context.now.env.now dia.new (M.kept context.now.m.now) (arguments_sought context.now.env.now unwanted) (results_sought context.now.env.now unwanted) true wanted.now) }
{
    let arrow = arrow_of(context.env.defs(), unwanted);
    let args = within(context.env, dia, base.arguments, arrow.args)?;
    let result = outside(context.env, dia, base.results, arrow.result)?;
    let sought = Sought {
        args,
        result,
        may_fail: true,
    };
    find_pair(context, dia, wanted, sought)
}
