//! List paths.
ghost use Rattle.std.specs.Prelude.{ℕ, ◌+◌, ◌-◌, ◌<◌, ◌≤◌, ◌++◌, ◌∷◌, ◌≡◌, All, IfOk, IfSome, List, OnOk, Some, ⊤, length, map, slice_index};
ghost use Rattle.type_diagrams.specs.declared.kind.Kind.TheVariants.{List as Lists};
ghost use Rattle.type_diagrams.specs.Conditions.{Condition, IsShapeOf};
ghost use Rattle.type_diagrams.specs.Kinds.{the_mark};
ghost use Rattle.type_diagrams.specs.Members.{AllowsLength, item_of};
ghost use Rattle.type_diagrams.specs.Tables.{IsDiagram, condition};
ghost use Rattle.type_diagrams.specs.Turns.{IsReady, IsSound, Turns};
ghost use Rattle.type_diagrams.specs.Whole.{Extends, Gives};
ghost use Rattle.type_model.specs.declared.atoms.AtomDef.{AtomDef as AnyAtom};
ghost use Rattle.empty_product.specs.declared.avoid.Filling.TheVariants.{Parts};
ghost use Rattle.empty_product.specs.declared.slots.Slot.TheVariants.{Present};
ghost use Rattle.empty_product.specs.Lists.{AreAsked, AreDemandsOf, AreThose, FixesBefore, IsDemandOf, IsFilled, IsFilledWith, IsListTurn, IsSameFrom, TellsItems, TellsLists, item_asked};
ghost use Rattle.empty_product.specs.Play.{IsListAtom};

use crate::avoid::{Filling, avoid};
use crate::bases::{frozen_if, has_both_marks};
use crate::further::{Further, FurtherParts, RestDemand, further_parts};
use crate::list_atoms::{
    all_allow_length, allows_length, item_question, items_question, lists_in_play, longest_prefix,
};
use crate::literals::Literals;
use crate::slots::{Demand, Known, Slot, Unwanted, find_part, standing};
use bal_base::Memory;
use std::alloc::Global;
use type_diagrams::{Context, Diagrams, Finding, Member, Path, Turn};
use type_model::{AtomDef, TypeEnv};
use witness::Witness;

/// A shape of a list path, that there is none, or a question about an item: for each length up to the longest
/// fixed prefix, and then for all longer lists. A path that doesn't say whether its lists are marked is
/// settled by its unmarked ones.
pub fn list_shape<M: Member>(
    alloc: Global,
    env: &TypeEnv,
    dia: &mut Diagrams,
    path: &Path,
    m: &M,
) -> Result<Turn, Memory>
    requires { IsReady env.now dia.old (M.kept m.now) Lists path.now }
    ensures extends { Extends (length env.now) dia.old dia.new }
    ensures turns { IfOk result (Turns env.now dia.new (M.kept m.now) Lists path.now) }
{
    let context = Context { alloc, env, m };
    let wanted = path.wanted(alloc)?;
    let named = path.unwanted(alloc)?;
    if has_both_marks(path) {
        return Ok(Turn::Empty);
    }
    let unwanted = lists_in_play(alloc, env, dia, &wanted, &named)?;
    let marked = path.is_marked();
    let literals = Literals {
        wanted: &wanted,
        unwanted: &unwanted,
        marked,
    };
    let filling = path_lists(&context, dia, &literals)?;
    turn_of(alloc, marked, filling)
}

/// Lists of any length in all wanted atoms and in no unwanted one.
fn path_lists<M: Member>(
    context: &Context<'_, M>,
    dia: &mut Diagrams,
    literals: &Literals<'_>,
) -> Result<Filling, Memory>
    requires wanted { All (IsListAtom context.now.env.now) literals.now.wanted.now }
    requires unwanted { All (IsListAtom context.now.env.now) literals.now.unwanted.now }
    requires sound { All (IsSound context.now.env.now dia.old) (M.kept context.now.m.now) }
    ensures extends { Extends (length context.now.env.now) dia.old dia.new }
    ensures few { OnOk result (length context.now.env.now ≤ the_mark) }
    ensures tells { IfOk result (TellsLists context.now.env.now (item_asked context.now.env.now literals.now.wanted.now literals.now.marked) dia.new (M.kept context.now.m.now) literals.now.wanted.now literals.now.unwanted.now (λ n. ⊤)) }
{
    let longest = longest_prefix(context.env.defs(), literals.wanted);
    let other = longest_prefix(context.env.defs(), literals.unwanted);
    let prefix = longest.max(other);
    let bases = bases(
        context.alloc,
        context.env,
        dia,
        literals.wanted,
        literals.marked,
        prefix,
    )?;
    all_lists(context, dia, &bases, literals)
}

/// What is said of the path, where its lists are marked or not.
fn turn_of(alloc: Global, mark: bool, filling: Filling) -> Result<Turn, Memory>
    requires { IsFilled filling }
    ensures { IfOk result (IsListTurn mark filling) }
{
    match filling {
        Filling::Parts(parts) => {
            let items = all_items(alloc, parts)?;
            Ok(Turn::Shape(Witness::list(alloc, mark, items)?))
        }
        Filling::Empty => Ok(Turn::Empty),
        Filling::Ask(question) => Ok(Turn::Ask(question)),
    }
}

/// The parts, of which each place has one.
fn all_items(alloc: Global, parts: Vec<Option<Witness>>) -> Result<Vec<Witness>, Memory>
    requires { IsFilled (Parts parts) }
    ensures { IfOk result (λ items. parts.items ≡ map Some items.items) }
{
    let mut items = Vec::new(alloc);
    for part in parts {
        match part {
            Some(item) => items.push(item)?,
            None => unreachable!(),
        }
    }
    Ok(items)
}

/// What is asked at each place up to and with the first one behind the longest fixed prefix; all later
/// places ask the same as that.
pub(crate) fn bases(
    alloc: Global,
    env: &TypeEnv,
    dia: &mut Diagrams,
    wanted: &[u32],
    marked: bool,
    prefix: usize,
) -> Result<Vec<u32>, Memory>
    requires wanted { All (IsListAtom env.now) wanted.now }
    ensures extends { Extends (length env.now) dia.old dia.new }
    ensures count { IfOk result (λ bases. length bases.items ≡ prefix + 1) }
    ensures made { IfOk result (λ bases. AreAsked dia.new (item_asked env.now wanted.now marked) bases.items) }
{
    let mut bases = Vec::new(alloc);
    for place in 0..prefix {
        bases.push(base(env, dia, wanted, marked, place)?)?;
    }
    bases.push(base(env, dia, wanted, marked, prefix)?)?;
    Ok(bases)
}

/// What is asked at a place.
pub(crate) fn base(
    env: &TypeEnv,
    dia: &mut Diagrams,
    wanted: &[u32],
    marked: bool,
    place: usize,
) -> Result<u32, Memory>
    requires wanted { All (IsListAtom env.now) wanted.now }
    ensures extends { Extends (length env.now) dia.old dia.new }
    ensures made { IfOk result (Gives dia.new (item_asked env.now wanted.now marked place)) }
{
    let question = items_question(env, dia, wanted, place)?;
    frozen_if(env, dia, marked, question)
}

/// Lists of each length.
fn all_lists<M: Member>(
    context: &Context<'_, M>,
    dia: &mut Diagrams,
    bases: &[u32],
    literals: &Literals<'_>,
) -> Result<Filling, Memory>
    requires wanted { All (IsListAtom context.now.env.now) literals.now.wanted.now }
    requires unwanted { All (IsListAtom context.now.env.now) literals.now.unwanted.now }
    requires bases { All (IsDiagram dia.old) bases.now }
    requires some { 0 < length bases.now }
    requires wanted_before { All (FixesBefore context.now.env.now (length bases.now - 1)) literals.now.wanted.now }
    requires unwanted_before { All (FixesBefore context.now.env.now (length bases.now - 1)) literals.now.unwanted.now }
    requires sound { All (IsSound context.now.env.now dia.old) (M.kept context.now.m.now) }
    ensures extends { Extends (length context.now.env.now) dia.old dia.new }
    ensures tells { IfOk result (λ filling. (base : ℕ → Condition) → AreAsked dia.old base bases.now → IsSameFrom (length bases.now - 1) base → TellsLists context.now.env.now base dia.new (M.kept context.now.m.now) literals.now.wanted.now literals.now.unwanted.now (λ n. ⊤) filling) }
{
    match short_lists(context, dia, bases, literals)? {
        Filling::Empty => long_lists(context, dia, bases, literals),
        Filling::Parts(parts) => Ok(Filling::Parts(parts)),
        Filling::Ask(question) => Ok(Filling::Ask(question)),
    }
}

/// Lists that are no longer than the longest fixed prefix.
fn short_lists<M: Member>(
    context: &Context<'_, M>,
    dia: &mut Diagrams,
    bases: &[u32],
    literals: &Literals<'_>,
) -> Result<Filling, Memory>
    requires wanted { All (IsListAtom context.now.env.now) literals.now.wanted.now }
    requires unwanted { All (IsListAtom context.now.env.now) literals.now.unwanted.now }
    requires bases { All (IsDiagram dia.old) bases.now }
    requires sound { All (IsSound context.now.env.now dia.old) (M.kept context.now.m.now) }
    ensures extends { Extends (length context.now.env.now) dia.old dia.new }
    ensures tells { IfOk result (λ filling. (base : ℕ → Condition) → AreAsked dia.old base bases.now → TellsLists context.now.env.now base dia.new (M.kept context.now.m.now) literals.now.wanted.now literals.now.unwanted.now (λ n. n < length bases.now) filling) }
{
    for length in 0..bases.len() {
        match lists_with_length(context, dia, &bases[..length], literals)? {
            Filling::Empty => {}
            Filling::Parts(parts) => return Ok(Filling::Parts(parts)),
            Filling::Ask(question) => return Ok(Filling::Ask(question)),
        }
    }
    Ok(Filling::Empty)
}

/// Lists with an item for each of the bases.
fn lists_with_length<M: Member>(
    context: &Context<'_, M>,
    dia: &mut Diagrams,
    bases: &[u32],
    literals: &Literals<'_>,
) -> Result<Filling, Memory>
    requires wanted { All (IsListAtom context.now.env.now) literals.now.wanted.now }
    requires unwanted { All (IsListAtom context.now.env.now) literals.now.unwanted.now }
    requires bases { All (IsDiagram dia.old) bases.now }
    requires sound { All (IsSound context.now.env.now dia.old) (M.kept context.now.m.now) }
    ensures extends { Extends (length context.now.env.now) dia.old dia.new }
    ensures tells { IfOk result (λ filling. (base : ℕ → Condition) → AreAsked dia.old base bases.now → TellsLists context.now.env.now base dia.new (M.kept context.now.m.now) literals.now.wanted.now literals.now.unwanted.now (λ n. n ≡ length bases.now) filling) }
{
    if !all_allow_length(context.env.defs(), literals.wanted, bases.len()) {
        return Ok(Filling::Empty);
    }
    let atoms = with_length(
        context.alloc,
        context.env.defs(),
        literals.unwanted,
        bases.len(),
    )?;
    lists_of(context, dia, bases, &atoms)
}

/// The atoms that have lists of this length.
pub(crate) fn with_length(
    alloc: Global,
    defs: &[AtomDef],
    atoms: &[u32],
    length: usize,
) -> Result<Vec<u32>, Memory>
    requires { All (IsListAtom defs.now) atoms.now }
    ensures { IfOk result (λ found. AreThose (AllowsLength defs.now length) atoms.now found.items) }
{
    let mut found = Vec::new(alloc);
    for atom in atoms {
        if !allows_length(defs, *atom, length) {
            continue;
        }
        found.push(*atom)?;
    }
    Ok(found)
}

/// Items for these bases that avoid the atoms.
fn lists_of<M: Member>(
    context: &Context<'_, M>,
    dia: &mut Diagrams,
    bases: &[u32],
    atoms: &[u32],
) -> Result<Filling, Memory>
    requires atoms { All (IsListAtom context.now.env.now) atoms.now }
    requires bases { All (IsDiagram dia.old) bases.now }
    requires sound { All (IsSound context.now.env.now dia.old) (M.kept context.now.m.now) }
    ensures extends { Extends (length context.now.env.now) dia.old dia.new }
    ensures tells { IfOk result (λ filling. (base : ℕ → Condition) → AreAsked dia.old base bases.now → TellsItems context.now.env.now base dia.new (M.kept context.now.m.now) (λ n. n ≡ length bases.now) atoms.now filling) }
{
    if let Some(found) = unsettled(dia, bases, context.m) {
        return Ok(found);
    }
    let slots = bases_slots(context.alloc, bases)?;
    let unwanted = all_demands(context.alloc, context.env, dia, atoms, bases.len())?;
    avoid(context, dia, &slots, &unwanted)
}

/// What is told where not each base has a simple shape or one that the table knows.
fn unsettled<M: Member>(dia: &Diagrams, bases: &[u32], m: &M) -> Option<Filling>
    requires bases { All (IsDiagram dia.now) bases.now }
    ensures { IfSome result (λ filling. (env : List AnyAtom) (base : ℕ → Condition) (atoms : List ℕ) → AreAsked dia.now base bases.now → TellsItems env base dia.now (M.kept m.now) (λ n. n ≡ length bases.now) atoms filling) }
{
    for base in bases {
        if dia.has_simple_shape(*base) {
            continue;
        }
        match standing(dia, *base, m) {
            Known::Full => {}
            Known::Void => return Some(Filling::Empty),
            Known::Unknown => return Some(Filling::Ask(*base)),
        }
    }
    None
}

/// An item in each base.
pub(crate) fn bases_slots(alloc: Global, bases: &[u32]) -> Result<Vec<Slot>, Memory>
    ensures { IfOk result (λ slots. slots.items ≡ map Present bases.now) }
{
    let mut slots = Vec::new(alloc);
    for base in bases {
        slots.push(Slot::Present(*base))?;
    }
    Ok(slots)
}

/// What each of the atoms asks at the first places.
pub(crate) fn all_demands(
    alloc: Global,
    env: &TypeEnv,
    dia: &mut Diagrams,
    atoms: &[u32],
    places: usize,
) -> Result<Vec<Unwanted>, Memory>
    requires atoms { All (IsListAtom env.now) atoms.now }
    ensures extends { Extends (length env.now) dia.old dia.new }
    ensures made { IfOk result (λ us. AreDemandsOf env.now dia.new places atoms.now us.items) }
{
    let mut unwanted = Vec::new(alloc);
    for atom in atoms {
        unwanted.push(demands(alloc, env, dia, *atom, places)?)?;
    }
    Ok(unwanted)
}

/// What the atom asks at the first places.
fn demands(
    alloc: Global,
    env: &TypeEnv,
    dia: &mut Diagrams,
    atom: u32,
    places: usize,
) -> Result<Unwanted, Memory>
    requires atom { IsListAtom env.now atom }
    ensures extends { Extends (length env.now) dia.old dia.new }
    ensures made { IfOk result (λ u. IsDemandOf env.now dia.new places atom u.demands.items) }
{
    let mut demands = Vec::new(alloc);
    for place in 0..places {
        let question = item_question(env, dia, atom, place)?;
        demands.push(Demand {
            question,
            required: false,
        })?;
    }
    Ok(Unwanted { demands })
}

/// Lists that are longer than each fixed prefix. Only atoms with a rest have such lists.
fn long_lists<M: Member>(
    context: &Context<'_, M>,
    dia: &mut Diagrams,
    bases: &[u32],
    literals: &Literals<'_>,
) -> Result<Filling, Memory>
    requires wanted { All (IsListAtom context.now.env.now) literals.now.wanted.now }
    requires unwanted { All (IsListAtom context.now.env.now) literals.now.unwanted.now }
    requires bases { All (IsDiagram dia.old) bases.now }
    requires some { 0 < length bases.now }
    requires wanted_before { All (FixesBefore context.now.env.now (length bases.now - 1)) literals.now.wanted.now }
    requires unwanted_before { All (FixesBefore context.now.env.now (length bases.now - 1)) literals.now.unwanted.now }
    requires sound { All (IsSound context.now.env.now dia.old) (M.kept context.now.m.now) }
    ensures extends { Extends (length context.now.env.now) dia.old dia.new }
    ensures tells { IfOk result (λ filling. (base : ℕ → Condition) → AreAsked dia.old base bases.now → IsSameFrom (length bases.now - 1) base → TellsLists context.now.env.now base dia.new (M.kept context.now.m.now) literals.now.wanted.now literals.now.unwanted.now (λ n. length bases.now ≤ n) filling) }
{
    if !all_allow_length(context.env.defs(), literals.wanted, bases.len()) {
        return Ok(Filling::Empty);
    }
    let rest = bases[bases.len() - 1];
    let first = match find_part(context, dia, rest)? {
        Finding::Part(first) => first,
        Finding::Held => return Ok(Filling::Empty),
        Finding::Unknown => return Ok(Filling::Ask(rest)),
    };
    let atoms = with_length(
        context.alloc,
        context.env.defs(),
        literals.unwanted,
        bases.len(),
    )?;
    longer_lists(context, dia, bases, &atoms, first)
}

/// Items for all bases, of which the first item of the last one is given, and further items of that.
fn longer_lists<M: Member>(
    context: &Context<'_, M>,
    dia: &mut Diagrams,
    bases: &[u32],
    atoms: &[u32],
    first: Witness,
) -> Result<Filling, Memory>
    requires atoms { All (IsListAtom context.now.env.now) atoms.now }
    requires atoms_before { All (FixesBefore context.now.env.now (length bases.now - 1)) atoms.now }
    requires bases { All (IsDiagram dia.old) bases.now }
    requires some { 0 < length bases.now }
    requires first { IsShapeOf context.now.env.now (condition dia.old (slice_index bases.now (length bases.now - 1))) first }
    requires sound { All (IsSound context.now.env.now dia.old) (M.kept context.now.m.now) }
    ensures extends { Extends (length context.now.env.now) dia.old dia.new }
    ensures tells { IfOk result (λ filling. (base : ℕ → Condition) → AreAsked dia.old base bases.now → IsSameFrom (length bases.now - 1) base → TellsItems context.now.env.now base dia.new (M.kept context.now.m.now) (λ n. length bases.now ≤ n) atoms.now filling) }
{
    let prefix = bases.len() - 1;
    let rest = bases[prefix];
    let demands = rest_demands(context.alloc, context.env, dia, atoms, prefix)?;
    let split = match further_parts(context, dia, rest, &demands)? {
        Further::Parts(split) => split,
        Further::Ask(question) => return Ok(Filling::Ask(question)),
    };
    let FurtherParts {
        parts: further,
        staying,
    } = split;
    match lists_of(context, dia, &bases[..prefix], &staying)? {
        Filling::Parts(parts) => with_further(parts, first, further),
        Filling::Empty => Ok(Filling::Empty),
        Filling::Ask(question) => Ok(Filling::Ask(question)),
    }
}

/// What the atoms ask behind the longest fixed prefix.
pub(crate) fn rest_demands(
    alloc: Global,
    env: &TypeEnv,
    dia: &mut Diagrams,
    atoms: &[u32],
    prefix: usize,
) -> Result<Vec<RestDemand>, Memory>
    requires atoms { All (IsListAtom env.now) atoms.now }
    ensures extends { Extends (length env.now) dia.old dia.new }
    ensures atoms { IfOk result (λ demands. map (λ d. d.atom) demands.items ≡ atoms.now) }
    ensures made { IfOk result (λ demands. All (λ d. Gives dia.new (item_of env.now prefix d.atom) d.question) demands.items) }
{
    let mut demands = Vec::new(alloc);
    for atom in atoms {
        let question = item_question(env, dia, *atom, prefix)?;
        demands.push(RestDemand {
            atom: *atom,
            question,
        })?;
    }
    Ok(demands)
}

/// The items with one more of the rest behind them, and further ones.
fn with_further(
    parts: Vec<Option<Witness>>,
    first: Witness,
    further: Vec<Witness>,
) -> Result<Filling, Memory>
    ensures { IfOk result (λ filling. IsFilledWith (parts.items ++ map Some (first ∷ further.items)) filling) }
{
    let mut parts = parts;
    parts.push(Some(first))?;
    for item in further {
        parts.push(Some(item))?;
    }
    Ok(Filling::Parts(parts))
}
