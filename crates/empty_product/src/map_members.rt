//! What stands at the keys of mappings.
ghost use Rattle.std.specs.Prelude.{◌≡◌, ◌==◌, ◌++◌, ◌<◌, ◌≤◌, All, IfOk, length, true};
ghost use Rattle.std.specs.List.{list_any};
ghost use Rattle.std.specs.Option.{option_copied};
ghost use Rattle.type_diagrams.specs.declared.kind.Kind.TheVariants.{Mapping as Mappings};
ghost use Rattle.type_diagrams.specs.Conditions.{LooksAtKinds, nothing};
ghost use Rattle.type_diagrams.specs.Kinds.{the_mark};
ghost use Rattle.type_diagrams.specs.Members.{IsMappingOutOfPlay, atoms_in};
ghost use Rattle.type_diagrams.specs.Projections.{Projects};
ghost use Rattle.type_diagrams.specs.Tables.{IsDiagram, condition};
ghost use Rattle.type_diagrams.specs.Turns.{HasLiteralsOf, IsReady, IsSound};
ghost use Rattle.type_diagrams.specs.Whole.{Extends, Gives};
ghost use Rattle.empty_product.specs.Cells.{LooksAtParts};
ghost use Rattle.empty_product.specs.Keys.{AreInOrder};
ghost use Rattle.empty_product.specs.MemberParts.{AreAskedKeys, IsRoom, TellsMembers, TellsParts, TellsPlaced};
ghost use Rattle.empty_product.specs.Parts.{field_keys};
ghost use Rattle.empty_product.specs.Play.{AreInPlay, IsMappingAtom};

use crate::bases::has_both_marks;
use crate::cells::parts_at;
use crate::further::{Further, FurtherParts, further_parts};
use crate::literals::Literals;
use crate::mapping_atoms::{add_key, key_behind, mappings_in_play};
use crate::mappings::{all_demands, base, keys_of, rest_demands, slots};
use bal_base::{Memory, Text};
use std::alloc::Global;
use type_diagrams::{Context, Diagrams, Member, Path, Projection};
use type_model::TypeEnv;
use witness::Witness;

/// What stands at a key of a mapping path's shapes, or at any.
pub fn map_parts<M: Member>(
    alloc: Global,
    env: &TypeEnv,
    dia: &mut Diagrams,
    path: &Path,
    name: Option<&Text>,
    m: &M,
) -> Result<Projection, Memory>
    requires { IsReady env.now dia.old (M.kept m.now) Mappings path.now }
    ensures extends { Extends (length env.now) dia.old dia.new }
    ensures projects { IfOk result (Projects env.now dia.new (M.kept m.now) Mappings path.now (field_keys (option_copied name.entry))) }
{
    let context = Context { alloc, env, m };
    let holding = path.wanted(alloc)?;
    let wanted = holding.as_slice();
    let failing = path.unwanted(alloc)?;
    let never = dia.nothing()?;
    if has_both_marks(path) {
        return Ok(Projection::Parts(never));
    }
    let playing = mappings_in_play(alloc, env, dia, wanted, failing.as_slice())?;
    let unwanted = playing.as_slice();
    let keys = asked_keys(alloc, env, wanted, unwanted, name)?;
    parts_at_keys(&context, dia, never, path, unwanted, keys.as_slice())
}

/// The key, or all that the atoms name and another one.
fn asked_keys(
    alloc: Global,
    env: &TypeEnv,
    wanted: &[u32],
    unwanted: &[u32],
    name: Option<&Text>,
) -> Result<Vec<Text>, Memory>
    requires wanted { All (IsMappingAtom env.now) wanted.now }
    requires unwanted { All (IsMappingAtom env.now) unwanted.now }
    ensures { IfOk result (λ keys. AreAskedKeys env.now (wanted.now ++ unwanted.now) (option_copied name.entry) keys.items) }
{
    match name {
        Some(name) => {
            let mut keys = Vec::new(alloc);
            keys.push(name.share())?;
            Ok(keys)
        }
        None => {
            let mut keys = keys_of(alloc, env, wanted, unwanted)?;
            let fresh = key_behind(alloc, keys.as_slice())?;
            keys.push(fresh)?;
            Ok(keys)
        }
    }
}

/// What stands at one of the keys in shapes of the path, of which these unwanted atoms are in play.
fn parts_at_keys<M: Member>(
    context: &Context<'_, M>,
    dia: &mut Diagrams,
    never: u32,
    path: &Path,
    unwanted: &[u32],
    keys: &[Text],
) -> Result<Projection, Memory>
    requires few { length context.now.env.now ≤ the_mark }
    requires literals { HasLiteralsOf context.now.env.now Mappings path.now }
    requires play { AreInPlay (IsMappingOutOfPlay context.now.env.now (atoms_in path.now.pos)) (atoms_in path.now.neg) unwanted.now }
    requires one_way { ¬ ((list_any (λ l. l == the_mark) path.now.pos ≡ true) × (list_any (λ l. l == the_mark) path.now.neg ≡ true)) }
    requires never { Gives dia.old nothing never }
    requires sound { All (IsSound context.now.env.now dia.old) (M.kept context.now.m.now) }
    ensures extends { Extends (length context.now.env.now) dia.old dia.new }
    ensures tells { IfOk result (TellsParts context.now.env.now dia.new (M.kept context.now.m.now) path.now unwanted.now keys.now) }
{
    let holding = path.wanted(context.alloc)?;
    let wanted = holding.as_slice();
    let marked = path.is_marked();
    let literals = Literals {
        wanted,
        unwanted,
        marked,
    };
    let mut found = never;
    for key in keys {
        let next = parts_at_key(context, dia, &literals, key, found)?;
        match next {
            Projection::Parts(parts) => found = parts,
            Projection::Ask(question) => return Ok(Projection::Ask(question)),
        }
    }
    Ok(Projection::Parts(found))
}

/// Besides `found` what stands at a key, which counts as one that an atom names.
fn parts_at_key<M: Member>(
    context: &Context<'_, M>,
    dia: &mut Diagrams,
    literals: &Literals<'_>,
    key: &Text,
    found: u32,
) -> Result<Projection, Memory>
    requires wanted { All (IsMappingAtom context.now.env.now) literals.now.wanted.now }
    requires unwanted { All (IsMappingAtom context.now.env.now) literals.now.unwanted.now }
    requires found { IsDiagram dia.old found }
    requires sound { All (IsSound context.now.env.now dia.old) (M.kept context.now.m.now) }
    ensures extends { Extends (length context.now.env.now) dia.old dia.new }
    ensures looks { IfOk result (λ p. LooksAtKinds context.now.env.now (condition dia.old found) → LooksAtParts context.now.env.now dia.new p) }
    ensures tells { IfOk result (TellsMembers context.now.env.now literals.now.wanted.now literals.now.marked dia.new (M.kept context.now.m.now) literals.now.unwanted.now key.now (condition dia.old found)) }
{
    let mut keys = keys_of(
        context.alloc,
        context.env,
        literals.wanted,
        literals.unwanted,
    )?;
    let target = add_key(&mut keys, key)?;
    let all = keys.as_slice();
    let fresh = key_behind(context.alloc, all)?;
    let rest = base(context.env, dia, literals.wanted, literals.marked, &fresh)?;
    let made = rest_demands(context.alloc, context.env, dia, literals.unwanted, &fresh)?;
    let demands = made.as_slice();
    let split = further_parts(context, dia, rest, demands)?;
    match split {
        Further::Parts(FurtherParts { parts, staying }) => {
            let _room = keys_behind(context.alloc, all, parts.as_slice())?;
            let atoms = staying.as_slice();
            let left = Literals {
                wanted: literals.wanted,
                unwanted: atoms,
                marked: literals.marked,
            };
            placed_parts(context, dia, &left, all, target, found)
        }
        Further::Ask(question) => Ok(Projection::Ask(question)),
    }
}

/// The keys, and one behind them for each further part: a mapping can have so many members.
fn keys_behind(alloc: Global, keys: &[Text], further: &[Witness]) -> Result<Vec<Text>, Memory>
    requires { AreInOrder keys.now }
    ensures { IfOk result (λ all. IsRoom keys.now (length further.now) all.items) }
{
    let mut all = copies(alloc, keys)?;
    for _part in further {
        let key = key_behind(alloc, all.as_slice())?;
        all.push(key)?;
    }
    Ok(all)
}

/// Handles of the same keys.
fn copies(alloc: Global, keys: &[Text]) -> Result<Vec<Text>, Memory>
    ensures { IfOk result (λ copies. copies.items ≡ keys.now) }
{
    let mut copies = Vec::new(alloc);
    for key in keys {
        copies.push(key.share())?;
    }
    Ok(copies)
}

/// Besides `found` what stands at one of the keys in mappings that avoid the atoms at these.
fn placed_parts<M: Member>(
    context: &Context<'_, M>,
    dia: &mut Diagrams,
    literals: &Literals<'_>,
    keys: &[Text],
    target: usize,
    found: u32,
) -> Result<Projection, Memory>
    requires wanted { All (IsMappingAtom context.now.env.now) literals.now.wanted.now }
    requires atoms { All (IsMappingAtom context.now.env.now) literals.now.unwanted.now }
    requires target { target < length keys.now }
    requires found { IsDiagram dia.old found }
    requires sound { All (IsSound context.now.env.now dia.old) (M.kept context.now.m.now) }
    ensures extends { Extends (length context.now.env.now) dia.old dia.new }
    ensures looks { IfOk result (λ p. LooksAtKinds context.now.env.now (condition dia.old found) → LooksAtParts context.now.env.now dia.new p) }
    ensures tells { IfOk result (TellsPlaced context.now.env.now literals.now.wanted.now literals.now.marked dia.new (M.kept context.now.m.now) keys.now target literals.now.unwanted.now (condition dia.old found)) }
{
    let places = slots(
        context.alloc,
        context.env,
        dia,
        literals.wanted,
        literals.marked,
        keys,
    )?;
    let asked = all_demands(context.alloc, context.env, dia, literals.unwanted, keys)?;
    parts_at(context, dia, places, asked, target, found)
}
