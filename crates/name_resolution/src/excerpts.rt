//! What the function `main` reaches, where it stands before all faults in names.
ghost use Rattle.std.specs.Prelude.{◌≡◌, ◌<◌, ◌≤◌, ◌++◌, ◌∷◌, [], IfOk, IfSome, OnOk, Some as Present, length, suc, take, if◌then◌else◌};
ghost use Rattle.name_resolution.specs.Excerpts.{picked as picked_of};
ghost use Rattle.name_resolution.specs.Faults.{IsGraphOf, definitions_named};
ghost use Rattle.name_resolution.specs.MainExcerpt.{IsMainExcerpt, IsOrdered, TellsOf, IsWhether, is_main_in as is_main_in_module, main_number as main_number_of};
ghost use Rattle.name_resolution.specs.Reached.{is_reached as is_reached_by};

use crate::main_form::is_main;
use crate::named::{Graph, definitions, graph_of, in_order};
use crate::outlines::Outline;
use crate::reached::{is_reached, reached};
use bal_base::{Fault, Memory, Stop};
use std::alloc::Global;

/// What the function `main` reaches of the definitions of a package, itself among them.
#[derive(Drop)]
pub struct Excerpt {
    /// By number in text order, how many steps lead from `main` to a definition, where any do.
    pub away: Vec<Option<usize>>,
    /// The numbers of what is reached, counted among that alone, each once and behind those that are parts of its type.
    pub order: Vec<usize>,
}

impl Excerpt {
    /// Whether the definition with this number in text order is `main` or is reached by it.
    pub fn has(&self, number: usize) -> bool
        ensures { result ≡ is_reached_by self.now.away.items number }
    {
        is_reached(&self.away, number)
    }
}

/// What `main` reaches in the module `home`, where it stands before all faults in names and all that it reaches is without fault.
pub(crate) fn main_excerpt(
    alloc: Global,
    home: usize,
    outlines: Vec<Outline>,
) -> Result<Option<Excerpt>, Memory>
    ensures { IfOk result (IsMainExcerpt outlines.items home) }
{
    match main_number(home, &outlines) {
        Some(main) => excerpt_from(alloc, home, outlines, main),
        None => Ok(None),
    }
}

/// The number of the first definition of the name `main` in the module `home`.
fn main_number(home: usize, outlines: &[Outline]) -> Option<usize>
    ensures first { result ≡ main_number_of outlines.now home }
    ensures placed { IfSome result (λ m. m < length outlines.now) }
{
    for (number, d) in outlines.iter().enumerate() {
        if is_main_in(home, d) {
            return Some(number);
        }
    }
    None
}

fn is_main_in(home: usize, d: &Outline) -> bool
    ensures { result ≡ is_main_in_module home d.now }
{
    home == d.module && is_main(&d.name)
}

fn excerpt_from(
    alloc: Global,
    home: usize,
    outlines: Vec<Outline>,
    main: usize,
) -> Result<Option<Excerpt>, Memory>
    requires main { main_number_of outlines.items home ≡ Present main }
    requires placed { main < length outlines.items }
    ensures { IfOk result (IsMainExcerpt outlines.items home) }
{
    let graph = graph_of(alloc, &outlines)?;
    if !is_free(alloc, home, &outlines, &graph, front(&outlines, main))? {
        return Ok(None);
    }
    let away = reached(alloc, &outlines, &graph.table, main)?;
    let chosen = picked(alloc, outlines, &away)?;
    ordered(alloc, home, chosen, away)
}

/// The definitions up to this number.
fn front(outlines: &[Outline], last: usize) -> &[Outline]
    requires { last < length outlines.now }
    ensures { result.now ≡ take (suc last) outlines.now }
{
    &outlines[..last + 1]
}

/// Whether so many of the definitions are without fault.
fn is_free(
    alloc: Global,
    home: usize,
    outlines: &[Outline],
    graph: &Graph,
    front: &[Outline],
) -> Result<bool, Memory>
    requires graph { IsGraphOf outlines.now graph.now }
    requires long { length front.now ≤ length outlines.now }
    ensures { IfOk result (TellsOf (definitions_named outlines.now home 0 front.now)) }
{
    told(definitions(alloc, home, outlines, graph, front))
}

/// Whether there is no fault.
fn told(named: Result<(), Stop<Fault>>) -> Result<bool, Memory>
    ensures { IsWhether named result }
{
    match named {
        Ok(()) => Ok(true),
        Err(Stop::Fault(_)) => Ok(false),
        Err(Stop::Memory) => Err(Memory),
    }
}

/// The definitions that are reached.
fn picked(
    alloc: Global,
    outlines: Vec<Outline>,
    away: &[Option<usize>],
) -> Result<Vec<Outline>, Memory>
    ensures { IfOk result (λ made. made.items ≡ picked_of (is_reached_by away.now) 0 outlines.items) }
{
    let mut out = Vec::new(alloc);
    for (number, d) in outlines.into_iter().enumerate() {
        push_if(&mut out, is_reached(away, number), d)?;
    }
    Ok(out)
}

/// A definition behind the others, if it is wanted.
fn push_if(out: &mut Vec<Outline>, wanted: bool, d: Outline) -> Result<(), Memory>
    ensures { OnOk result (out.new.items ≡ out.old.items ++ (if wanted then d ∷ [] else [])) }
{
    if wanted {
        out.push(d)?;
    }
    Ok(())
}

/// The same with the order of what is reached, where that is without fault.
fn ordered(
    alloc: Global,
    home: usize,
    chosen: Vec<Outline>,
    away: Vec<Option<usize>>,
) -> Result<Option<Excerpt>, Memory>
    ensures { IfOk result (IsOrdered chosen.items home away.items) }
{
    let graph = graph_of(alloc, &chosen)?;
    if !is_free(alloc, home, &chosen, &graph, &chosen)? {
        return Ok(None);
    }
    let order = in_order(alloc, &chosen)?;
    Ok(Some(Excerpt { away, order }))
}
