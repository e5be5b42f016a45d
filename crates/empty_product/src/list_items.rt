//! What stands at the places of lists.
ghost use Rattle.std.specs.Prelude.{ℕ, ◌+◌, ◌-◌, ◌<◌, ◌≤◌, ◌^◌, ◌≡◌, All, IfOk, OnOk, Some, length, slice_index};
ghost use Rattle.type_diagrams.specs.declared.kind.Kind.TheVariants.{List as Lists};
ghost use Rattle.type_diagrams.specs.Conditions.{Condition, nothing};
ghost use Rattle.type_diagrams.specs.Kinds.{the_mark};
ghost use Rattle.type_diagrams.specs.Projections.{Projects};
ghost use Rattle.type_diagrams.specs.Tables.{condition};
ghost use Rattle.type_diagrams.specs.Turns.{IsReady, IsSound};
ghost use Rattle.type_diagrams.specs.Whole.{Extends, Gives};
ghost use Rattle.empty_product.specs.Items.{GivesLooking, HasShape, IsLooking, TellsIndex, TellsItemsAt, TellsListsAt, TellsListsBefore};
ghost use Rattle.empty_product.specs.Lists.{AreAsked, FixesBefore, IsSameFrom, item_asked};
ghost use Rattle.empty_product.specs.Parts.{index_keys};
ghost use Rattle.empty_product.specs.Play.{IsListAtom};

use crate::bases::has_both_marks;
use crate::cells::parts_at;
use crate::further::{Further, further_parts};
use crate::list_atoms::{all_allow_length, lists_in_play, longest_prefix};
use crate::lists::{all_demands, base, bases, bases_slots, rest_demands, with_length};
use crate::literals::Literals;
use crate::slots::{Known, standing};
use bal_base::Memory;
use std::alloc::Global;
use type_diagrams::{Context, Diagrams, Member, Path, Projection};
use type_model::TypeEnv;

/// No list has an item at this index or behind it.
const NO_INDEX: u64 = 0x7fff_ffff_ffff_ffff;

/// What stands at an index of a list path's shapes, or at any.
pub fn list_parts<M: Member>(
    alloc: Global,
    env: &TypeEnv,
    dia: &mut Diagrams,
    path: &Path,
    place: Option<u64>,
    m: &M,
) -> Result<Projection, Memory>
    requires { IsReady env.now dia.old (M.kept m.now) Lists path.now }
    ensures extends { Extends (length env.now) dia.old dia.new }
    ensures projects { IfOk result (Projects env.now dia.new (M.kept m.now) Lists path.now (index_keys place)) }
{
    let context = Context { alloc, env, m };
    let wanted = path.wanted(alloc)?;
    let named = path.unwanted(alloc)?;
    let never = dia.nothing()?;
    if has_both_marks(path) {
        return Ok(Projection::Parts(never));
    }
    let unwanted = lists_in_play(alloc, env, dia, &wanted, &named)?;
    let marked = path.is_marked();
    let literals = Literals {
        wanted: &wanted,
        unwanted: &unwanted,
        marked,
    };
    path_items(&context, dia, never, &literals, place)
}

/// What stands at an index, or at any, in lists that are in all wanted atoms and in no unwanted one.
fn path_items<M: Member>(
    context: &Context<'_, M>,
    dia: &mut Diagrams,
    never: u32,
    literals: &Literals<'_>,
    place: Option<u64>,
) -> Result<Projection, Memory>
    requires wanted { All (IsListAtom context.now.env.now) literals.now.wanted.now }
    requires unwanted { All (IsListAtom context.now.env.now) literals.now.unwanted.now }
    requires never { Gives dia.old nothing never }
    requires sound { All (IsSound context.now.env.now dia.old) (M.kept context.now.m.now) }
    ensures extends { Extends (length context.now.env.now) dia.old dia.new }
    ensures few { OnOk result (length context.now.env.now ≤ the_mark) }
    ensures question { IfOk result (GivesLooking context.now.env.now dia.new) }
    ensures tells { IfOk result (TellsIndex context.now.env.now (item_asked context.now.env.now literals.now.wanted.now literals.now.marked) dia.new (M.kept context.now.m.now) literals.now.wanted.now literals.now.unwanted.now place) }
{
    let longest = longest_prefix(context.env.defs(), literals.wanted);
    let other = longest_prefix(context.env.defs(), literals.unwanted);
    let prefix = longest.max(other);
    let made = further_bases(
        context.alloc,
        context.env,
        dia,
        literals.wanted,
        literals.marked,
        prefix,
    )?;
    let bases = made.as_slice();
    match place {
        Some(index) => items_at_index(context, dia, never, bases, literals, index),
        None => {
            let places = bases.len() - 1;
            items_before(context, dia, never, bases, literals, places)
        }
    }
}

/// What is asked at each place up to and with the second one behind the longest fixed prefix: the first of
/// these two stands for all places behind the prefix.
fn further_bases(
    alloc: Global,
    env: &TypeEnv,
    dia: &mut Diagrams,
    wanted: &[u32],
    marked: bool,
    prefix: usize,
) -> Result<Vec<u32>, Memory>
    requires wanted { All (IsListAtom env.now) wanted.now }
    ensures extends { Extends (length env.now) dia.old dia.new }
    ensures count { IfOk result (λ bases. length bases.items ≡ prefix + 2) }
    ensures made { IfOk result (λ bases. AreAsked dia.new (item_asked env.now wanted.now marked) bases.items) }
{
    let mut all = bases(alloc, env, dia, wanted, marked, prefix)?;
    let further = base(env, dia, wanted, marked, all.len())?;
    all.push(further)?;
    Ok(all)
}

/// What stands at an index of lists, where the last base but one is that of all places behind each fixed prefix.
fn items_at_index<M: Member>(
    context: &Context<'_, M>,
    dia: &mut Diagrams,
    never: u32,
    bases: &[u32],
    literals: &Literals<'_>,
    index: u64,
) -> Result<Projection, Memory>
    requires wanted { All (IsListAtom context.now.env.now) literals.now.wanted.now }
    requires unwanted { All (IsListAtom context.now.env.now) literals.now.unwanted.now }
    requires bases { All (IsLooking context.now.env.now dia.old) bases.now }
    requires some { 1 < length bases.now }
    requires wanted_before { All (FixesBefore context.now.env.now (length bases.now - 2)) literals.now.wanted.now }
    requires unwanted_before { All (FixesBefore context.now.env.now (length bases.now - 2)) literals.now.unwanted.now }
    requires never { Gives dia.old nothing never }
    requires sound { All (IsSound context.now.env.now dia.old) (M.kept context.now.m.now) }
    ensures extends { Extends (length context.now.env.now) dia.old dia.new }
    ensures question { IfOk result (GivesLooking context.now.env.now dia.new) }
    ensures tells { IfOk result (λ p. (base : ℕ → Condition) → AreAsked dia.old base bases.now → IsSameFrom (length bases.now - 2) base → TellsIndex context.now.env.now base dia.new (M.kept context.now.m.now) literals.now.wanted.now literals.now.unwanted.now (Some index) p) }
{
    if index >= NO_INDEX {
        return Ok(Projection::Parts(never));
    }
    let place = index.min((bases.len() - 2) as u64) as usize;
    items_at(context, dia, bases, literals, place, never)
}

/// What stands at the first places, in lists of each length.
fn items_before<M: Member>(
    context: &Context<'_, M>,
    dia: &mut Diagrams,
    never: u32,
    bases: &[u32],
    literals: &Literals<'_>,
    places: usize,
) -> Result<Projection, Memory>
    requires wanted { All (IsListAtom context.now.env.now) literals.now.wanted.now }
    requires unwanted { All (IsListAtom context.now.env.now) literals.now.unwanted.now }
    requires bases { All (IsLooking context.now.env.now dia.old) bases.now }
    requires places { places < length bases.now }
    requires wanted_before { All (FixesBefore context.now.env.now (length bases.now - 1)) literals.now.wanted.now }
    requires unwanted_before { All (FixesBefore context.now.env.now (length bases.now - 1)) literals.now.unwanted.now }
    requires never { Gives dia.old nothing never }
    requires sound { All (IsSound context.now.env.now dia.old) (M.kept context.now.m.now) }
    ensures extends { Extends (length context.now.env.now) dia.old dia.new }
    ensures question { IfOk result (GivesLooking context.now.env.now dia.new) }
    ensures tells { IfOk result (λ p. (base : ℕ → Condition) → AreAsked dia.old base bases.now → IsSameFrom (length bases.now - 1) base → TellsListsBefore context.now.env.now base dia.new (M.kept context.now.m.now) literals.now.wanted.now literals.now.unwanted.now (λ n. n < 2 ^ 63) places nothing p) }
{
    let mut found = never;
    for place in 0..places {
        match items_at(context, dia, bases, literals, place, found)? {
            Projection::Parts(parts) => found = parts,
            Projection::Ask(question) => return Ok(Projection::Ask(question)),
        }
    }
    Ok(Projection::Parts(found))
}

/// Besides `found` what stands at a place, in lists of each length.
fn items_at<M: Member>(
    context: &Context<'_, M>,
    dia: &mut Diagrams,
    bases: &[u32],
    literals: &Literals<'_>,
    place: usize,
    found: u32,
) -> Result<Projection, Memory>
    requires wanted { All (IsListAtom context.now.env.now) literals.now.wanted.now }
    requires unwanted { All (IsListAtom context.now.env.now) literals.now.unwanted.now }
    requires bases { All (IsLooking context.now.env.now dia.old) bases.now }
    requires place { place < length bases.now - 1 }
    requires wanted_before { All (FixesBefore context.now.env.now (length bases.now - 1)) literals.now.wanted.now }
    requires unwanted_before { All (FixesBefore context.now.env.now (length bases.now - 1)) literals.now.unwanted.now }
    requires found { IsLooking context.now.env.now dia.old found }
    requires sound { All (IsSound context.now.env.now dia.old) (M.kept context.now.m.now) }
    ensures extends { Extends (length context.now.env.now) dia.old dia.new }
    ensures question { IfOk result (GivesLooking context.now.env.now dia.new) }
    ensures tells { IfOk result (λ p. (base : ℕ → Condition) → AreAsked dia.old base bases.now → IsSameFrom (length bases.now - 1) base → TellsListsAt context.now.env.now base dia.new (M.kept context.now.m.now) literals.now.wanted.now literals.now.unwanted.now (λ n. n < 2 ^ 63) place (condition dia.old found) p) }
{
    match short_items(context, dia, bases, literals, place, found)? {
        Projection::Parts(parts) => items_of_longer(context, dia, bases, literals, place, parts),
        Projection::Ask(question) => Ok(Projection::Ask(question)),
    }
}

/// Besides `found` what stands at a place in lists that have no item for the last of the bases.
fn short_items<M: Member>(
    context: &Context<'_, M>,
    dia: &mut Diagrams,
    bases: &[u32],
    literals: &Literals<'_>,
    place: usize,
    found: u32,
) -> Result<Projection, Memory>
    requires wanted { All (IsListAtom context.now.env.now) literals.now.wanted.now }
    requires unwanted { All (IsListAtom context.now.env.now) literals.now.unwanted.now }
    requires bases { All (IsLooking context.now.env.now dia.old) bases.now }
    requires place { place < length bases.now }
    requires found { IsLooking context.now.env.now dia.old found }
    requires sound { All (IsSound context.now.env.now dia.old) (M.kept context.now.m.now) }
    ensures extends { Extends (length context.now.env.now) dia.old dia.new }
    ensures question { IfOk result (GivesLooking context.now.env.now dia.new) }
    ensures tells { IfOk result (λ p. (base : ℕ → Condition) → AreAsked dia.old base bases.now → TellsListsAt context.now.env.now base dia.new (M.kept context.now.m.now) literals.now.wanted.now literals.now.unwanted.now (λ n. n < length bases.now) place (condition dia.old found) p) }
{
    let mut all = found;
    for length in place + 1..bases.len() {
        match items_with_length(context, dia, &bases[..length], literals, place, all)? {
            Projection::Parts(parts) => all = parts,
            Projection::Ask(question) => return Ok(Projection::Ask(question)),
        }
    }
    Ok(Projection::Parts(all))
}

/// Besides `found` what stands at a place in lists with an item for each of the bases.
fn items_with_length<M: Member>(
    context: &Context<'_, M>,
    dia: &mut Diagrams,
    bases: &[u32],
    literals: &Literals<'_>,
    place: usize,
    found: u32,
) -> Result<Projection, Memory>
    requires wanted { All (IsListAtom context.now.env.now) literals.now.wanted.now }
    requires unwanted { All (IsListAtom context.now.env.now) literals.now.unwanted.now }
    requires bases { All (IsLooking context.now.env.now dia.old) bases.now }
    requires place { place < length bases.now }
    requires found { IsLooking context.now.env.now dia.old found }
    requires sound { All (IsSound context.now.env.now dia.old) (M.kept context.now.m.now) }
    ensures extends { Extends (length context.now.env.now) dia.old dia.new }
    ensures question { IfOk result (GivesLooking context.now.env.now dia.new) }
    ensures tells { IfOk result (λ p. (base : ℕ → Condition) → AreAsked dia.old base bases.now → TellsListsAt context.now.env.now base dia.new (M.kept context.now.m.now) literals.now.wanted.now literals.now.unwanted.now (λ n. n ≡ length bases.now) place (condition dia.old found) p) }
{
    if !all_allow_length(context.env.defs(), literals.wanted, bases.len()) {
        return Ok(Projection::Parts(found));
    }
    let atoms = with_length(
        context.alloc,
        context.env.defs(),
        literals.unwanted,
        bases.len(),
    )?;
    items_of(context, dia, bases, &atoms, place, found)
}

/// Besides `found` what stands at a place in lists that are longer than each fixed prefix.
fn items_of_longer<M: Member>(
    context: &Context<'_, M>,
    dia: &mut Diagrams,
    bases: &[u32],
    literals: &Literals<'_>,
    place: usize,
    found: u32,
) -> Result<Projection, Memory>
    requires wanted { All (IsListAtom context.now.env.now) literals.now.wanted.now }
    requires unwanted { All (IsListAtom context.now.env.now) literals.now.unwanted.now }
    requires bases { All (IsLooking context.now.env.now dia.old) bases.now }
    requires place { place < length bases.now - 1 }
    requires wanted_before { All (FixesBefore context.now.env.now (length bases.now - 1)) literals.now.wanted.now }
    requires unwanted_before { All (FixesBefore context.now.env.now (length bases.now - 1)) literals.now.unwanted.now }
    requires found { IsLooking context.now.env.now dia.old found }
    requires sound { All (IsSound context.now.env.now dia.old) (M.kept context.now.m.now) }
    ensures extends { Extends (length context.now.env.now) dia.old dia.new }
    ensures question { IfOk result (GivesLooking context.now.env.now dia.new) }
    ensures tells { IfOk result (λ p. (base : ℕ → Condition) → AreAsked dia.old base bases.now → IsSameFrom (length bases.now - 1) base → TellsListsAt context.now.env.now base dia.new (M.kept context.now.m.now) literals.now.wanted.now literals.now.unwanted.now (λ n. (length bases.now ≤ n) × (n < 2 ^ 63)) place (condition dia.old found) p) }
{
    if !all_allow_length(context.env.defs(), literals.wanted, bases.len()) {
        return Ok(Projection::Parts(found));
    }
    let rest = bases[bases.len() - 1];
    let atoms = with_length(
        context.alloc,
        context.env.defs(),
        literals.unwanted,
        bases.len(),
    )?;
    match standing(dia, rest, context.m) {
        Known::Full => longer_items(context, dia, bases, &atoms, place, found),
        Known::Void => Ok(Projection::Parts(found)),
        Known::Unknown => Ok(Projection::Ask(rest)),
    }
}

/// Besides `found` what stands at a place among items for all bases, of which the last has a shape, and
/// further items of that.
fn longer_items<M: Member>(
    context: &Context<'_, M>,
    dia: &mut Diagrams,
    bases: &[u32],
    atoms: &[u32],
    place: usize,
    found: u32,
) -> Result<Projection, Memory>
    requires atoms { All (IsListAtom context.now.env.now) atoms.now }
    requires atoms_before { All (FixesBefore context.now.env.now (length bases.now - 1)) atoms.now }
    requires bases { All (IsLooking context.now.env.now dia.old) bases.now }
    requires place { place < length bases.now - 1 }
    requires last { HasShape context.now.env.now (condition dia.old (slice_index bases.now (length bases.now - 1))) }
    requires found { IsLooking context.now.env.now dia.old found }
    requires sound { All (IsSound context.now.env.now dia.old) (M.kept context.now.m.now) }
    ensures extends { Extends (length context.now.env.now) dia.old dia.new }
    ensures question { IfOk result (GivesLooking context.now.env.now dia.new) }
    ensures tells { IfOk result (λ p. (base : ℕ → Condition) → AreAsked dia.old base bases.now → IsSameFrom (length bases.now - 1) base → TellsItemsAt context.now.env.now base dia.new (M.kept context.now.m.now) (λ n. (length bases.now ≤ n) × (n < 2 ^ 63)) atoms.now place (condition dia.old found) p) }
{
    let prefix = bases.len() - 1;
    let demands = rest_demands(context.alloc, context.env, dia, atoms, prefix)?;
    match further_parts(context, dia, bases[prefix], &demands)? {
        Further::Parts(split) => {
            // A list can be as long as the bases with all further parts behind them.
            let _room: Vec<u32> = Vec::with_capacity(
                context.alloc,
                bases.len() + split.parts.len(),
            )?;
            items_of(context, dia, &bases[..prefix], &split.staying, place, found)
        }
        Further::Ask(question) => Ok(Projection::Ask(question)),
    }
}

/// Besides `found` what stands at a place among items for these bases that avoid the atoms.
fn items_of<M: Member>(
    context: &Context<'_, M>,
    dia: &mut Diagrams,
    bases: &[u32],
    atoms: &[u32],
    place: usize,
    found: u32,
) -> Result<Projection, Memory>
    requires atoms { All (IsListAtom context.now.env.now) atoms.now }
    requires bases { All (IsLooking context.now.env.now dia.old) bases.now }
    requires place { place < length bases.now }
    requires found { IsLooking context.now.env.now dia.old found }
    requires sound { All (IsSound context.now.env.now dia.old) (M.kept context.now.m.now) }
    ensures extends { Extends (length context.now.env.now) dia.old dia.new }
    ensures question { IfOk result (GivesLooking context.now.env.now dia.new) }
    ensures tells { IfOk result (λ p. (base : ℕ → Condition) → AreAsked dia.old base bases.now → TellsItemsAt context.now.env.now base dia.new (M.kept context.now.m.now) (λ n. n ≡ length bases.now) atoms.now place (condition dia.old found) p) }
{
    let slots = bases_slots(context.alloc, bases)?;
    let asked = all_demands(context.alloc, context.env, dia, atoms, bases.len())?;
    parts_at(context, dia, slots, asked, place, found)
}
