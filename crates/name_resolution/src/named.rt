//! The first fault in what the definitions of a package say of names.
ghost use Rattle.std.specs.Prelude.{◌≡◌, ◌<◌, ◌≤◌, ◌++◌, IfOk, OnOk, length, map, slice_get, true, ℕ};
ghost use Rattle.std.specs.List.{flat_map};
ghost use Rattle.std.specs.Option.{option_map};
ghost use Rattle.checks.specs.Checks.{Comes};
ghost use Rattle.descriptors.specs.Described.{Atoms};
ghost use Rattle.graphs.specs.Cycles.{IsOnCycle};
ghost use Rattle.graphs.specs.Cycles.{IsCycleFound};
ghost use Rattle.graphs.specs.Distances.{IsReversed};
ghost use Rattle.name_resolution.specs.Faults.{AreNamed, IsGraphOf, all_named, cycle_fault as cycle_fault_of, definition_fault, definition_named, definitions_named, name_if, unless};
ghost use Rattle.graphs.specs.Ordering.{IsOrder};
ghost use Rattle.name_resolution.specs.Resolved.{part as part_of, parts as parts_by_number, parts_of as parts_of_outline};
ghost use Rattle.name_resolution.specs.Tables.{IsTableOf};

use crate::faults::Resolver;
use crate::mentions::Mention;
use crate::outlines::{Kind, Outline};
use crate::table::NameTable;
use bal_base::{Fault, FaultCode, Kept, Memory, Name, NameList, Stop};
use graphs::{first_cycle, has_no_cycle, parts_first, reversed};
use std::alloc::Global;

/// The names of definitions, and by the definitions' numbers those that are parts of each, and those of which each is a part.
/// `acyclic`: it is known that none is a part of itself.
#[derive(Drop)]
pub(crate) struct Graph {
    pub(crate) table: NameTable,
    pub(crate) parts: Vec<Vec<usize>>,
    pub(crate) back: Vec<Vec<usize>>,
    pub(crate) acyclic: bool,
}

/// Whether the names in definitions are without fault: each is given once in a module, each name of a type stands for one, and no
/// type is its own part but inside a list, a mapping, an error, a function or a future; and whether the function `main` of the
/// module `home` has its form.
pub(crate) fn all_definitions(
    alloc: Global,
    home: usize,
    outlines: &[Outline],
) -> Result<(), Stop<Fault>>
    ensures { (env : Atoms) → Comes (all_named outlines.now home) env result env }
{
    match graph_of(alloc, outlines) {
        Ok(graph) => definitions(alloc, home, outlines, &graph, outlines),
        Err(Memory) => Err(Stop::Memory),
    }
}

/// The same of some that stand at the front of a list of definitions, from its first one on.
pub(crate) fn definitions(
    alloc: Global,
    home: usize,
    outlines: &[Outline],
    graph: &Graph,
    front: &[Outline],
) -> Result<(), Stop<Fault>>
    requires graph { IsGraphOf outlines.now graph.now }
    requires long { length front.now ≤ length outlines.now }
    ensures { (env : Atoms) → Comes (definitions_named outlines.now home 0 front.now) env result env }
{
    for (number, d) in front.iter().enumerate() {
        match definition(alloc, home, outlines, graph, number, d) {
            Ok(()) => {}
            Err(stop) => return Err(stop),
        }
    }
    Ok(())
}

pub(crate) fn graph_of(alloc: Global, outlines: &[Outline]) -> Result<Graph, Memory>
    ensures { IfOk result (IsGraphOf outlines.now) }
{
    let table = NameTable::of(alloc, outlines)?;
    let parts = parts(alloc, outlines, &table)?;
    let back = reversed(alloc, &parts)?;
    let acyclic = has_no_cycle(alloc, &parts)?;
    Ok(Graph {
        table,
        parts,
        back,
        acyclic,
    })
}

impl Graph {
    /// The others on the first of the shortest cycles that begin with a definition.
    fn cycle(&self, alloc: Global, number: usize) -> Result<Option<Vec<usize>>, Memory>
        requires reversed { IsReversed (map (λ v. v.items) self.now.parts.items) (map (λ v. v.items) self.now.back.items) }
        requires placed { number < length self.now.back.items }
        requires acyclic { self.now.acyclic ≡ true → (i : ℕ) → ¬ IsOnCycle (map (λ v. v.items) self.now.parts.items) i }
        ensures { IfOk result (λ found. IsCycleFound (map (λ v. v.items) self.now.parts.items) number (option_map (λ v. v.items) found)) }
    {
        if self.acyclic {
            Ok(None)
        } else {
            first_cycle(alloc, &self.parts, &self.back, number)
        }
    }
}

/// One definition: its cycle, or else the first fault in its names, or that of the form of `main`.
fn definition(
    alloc: Global,
    home: usize,
    outlines: &[Outline],
    graph: &Graph,
    number: usize,
    d: &Outline,
) -> Result<(), Stop<Fault>>
    requires graph { IsGraphOf outlines.now graph.now }
    requires placed { number < length outlines.now }
    ensures { (env : Atoms) → Comes (definition_named outlines.now home number d.now) env result env }
{
    match graph.cycle(alloc, number) {
        Ok(Some(others)) => match cycle_fault(alloc, outlines, number, d, &others) {
            Ok(fault) => Err(Stop::Fault(fault)),
            Err(Memory) => Err(Stop::Memory),
        },
        Ok(None) => names(home, outlines, graph, number, d),
        Err(Memory) => Err(Stop::Memory),
    }
}

fn names(
    home: usize,
    outlines: &[Outline],
    graph: &Graph,
    number: usize,
    d: &Outline,
) -> Result<(), Stop<Fault>>
    requires { IsTableOf outlines.now graph.now.table.numbers }
    ensures { (env : Atoms) → Comes (unless (definition_fault outlines.now home number d.now)) env result env }
{
    let resolver = Resolver {
        outlines,
        table: &graph.table,
    };
    match resolver.definition_fault(home, number, d) {
        Some(fault) => Err(Stop::Fault(fault)),
        None => Ok(()),
    }
}

/// The numbers of definitions without fault, each once, and behind those of its parts.
pub(crate) fn in_order(alloc: Global, outlines: &[Outline]) -> Result<Vec<usize>, Memory>
    requires { AreNamed outlines.now }
    ensures { IfOk result (λ order. IsOrder (parts_by_number outlines.now) order.items) }
{
    let table = NameTable::of(alloc, outlines)?;
    match parts_first(alloc, &parts(alloc, outlines, &table)?)? {
        Some(order) => Ok(order),
        None => unreachable!(),
    }
}

/// The fault of a definition that is a part of itself by way of these others.
fn cycle_fault(
    alloc: Global,
    outlines: &[Outline],
    number: usize,
    d: &Outline,
    others: &[usize],
) -> Result<Fault, Memory>
    ensures { IfOk result (λ fault. fault ≡ cycle_fault_of outlines.now number d.now others.now) }
{
    let mut names = Vec::new(alloc);
    name(&mut names, outlines, number)?;
    for other in others {
        name(&mut names, outlines, *other)?;
    }
    Ok(Fault {
        code: FaultCode::IllFounded,
        at: Some(d.at),
        kept: Kept::Names(NameList::of(names)),
    })
}

fn name(names: &mut Vec<Name>, outlines: &[Outline], number: usize) -> Result<(), Memory>
    ensures { OnOk result (names.new.items ≡ names.old.items ++ name_if (slice_get outlines.now number)) }
{
    match outlines.get(number) {
        Some(d) => Ok(names.push(d.name.share())?),
        None => Ok(()),
    }
}

fn parts(alloc: Global, outlines: &[Outline], table: &NameTable) -> Result<Vec<Vec<usize>>, Memory>
    requires { IsTableOf outlines.now table.now.numbers }
    ensures { IfOk result (λ made. map (λ v. v.items) made.items ≡ parts_by_number outlines.now) }
{
    let resolver = Resolver { outlines, table };
    let mut all = Vec::new(alloc);
    for d in outlines {
        all.push(resolver.parts_of(alloc, d)?)?;
    }
    Ok(all)
}

impl Resolver<'_> {
    /// The definitions whose types are parts of the type that this one defines.
    fn parts_of(&self, alloc: Global, d: &Outline) -> Result<Vec<usize>, Memory>
        requires { IsTableOf self.now.outlines.now self.now.table.now.numbers }
        ensures { IfOk result (λ made. made.items ≡ parts_of_outline self.now.outlines.now d.now) }
    {
        match d.kind {
            Kind::TypeName => self.parts_in(alloc, d),
            Kind::Constant | Kind::Variable | Kind::Function => Ok(Vec::new(alloc)),
        }
    }

    fn parts_in(&self, alloc: Global, d: &Outline) -> Result<Vec<usize>, Memory>
        requires { IsTableOf self.now.outlines.now self.now.table.now.numbers }
        ensures { IfOk result (λ made. made.items ≡ flat_map (part_of self.now.outlines.now d.now.«module») d.now.mentions) }
    {
        let mut parts = Vec::new(alloc);
        for mention in d.mentions.as_slice() {
            self.part(&mut parts, d.module, mention)?;
        }
        Ok(parts)
    }

    fn part(&self, parts: &mut Vec<usize>, from: usize, mention: &Mention) -> Result<(), Memory>
        requires { IsTableOf self.now.outlines.now self.now.table.now.numbers }
        ensures { OnOk result (parts.new.items ≡ parts.old.items ++ part_of self.now.outlines.now from mention.now) }
    {
        match mention {
            Mention::Use {
                home,
                name,
                inside: false,
                ..
            } => match self.resolve(from, *home, name) {
                Ok(number) => Ok(parts.push(number)?),
                Err(_) => Ok(()),
            },
            Mention::Use { .. } | Mention::Again { .. } | Mention::Own { .. } => Ok(()),
        }
    }
}
