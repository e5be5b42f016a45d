//! Events by neighbours of one worker, and the graph of all of them, for which an event looks at those neighbours alone to which an edge
//! may go.
#![tactic(auto)]

ghost use Rattle.std.specs.Prelude.{◌≡◌, ◌++◌, ◌∷◌, ◌==◌, ◌||◌, [], IfOk, OnOk, map};
ghost use Rattle.worker_members.specs.Held.{kind_of};
ghost use Rattle.worker_ranks.specs.inner.SideBySide.{AreRuns, IsGrown, IsRun, begins_with, may_lead as may_lead_of};
ghost use Rattle.worker_ranks.specs.inner.Turned.{AreOf, groups_held, laid};
ghost use Rattle.worker_ranks.specs.inner.Vertices.{graph_by, is_edge_by, passing, vertex_held};

use crate::close::{behind, may_need};
use crate::nodes::{Edges, Node, is_edge, push_if};
use bal_base::Memory;
use std::alloc::Global;

/// Whether the first of these is of this worker.
fn begins_with_one_of(run: &[Node<'_>], worker: u32) -> bool
    ensures { result ≡ begins_with worker (map vertex_held run.now) }
{
    match run.get(0) {
        Some(b) => b.worker == worker,
        None => false,
    }
}

/// An event alone.
fn alone<'a>(alloc: Global, node: Node<'a>) -> Result<Vec<Node<'a>>, Memory>
    ensures { IfOk result (λ run. map vertex_held run.items ≡ vertex_held node.entry ∷ []) }
{
    let mut run = Vec::new(alloc);
    run.push(node)?;
    Ok(run)
}

/// An event alone, behind the others.
fn begin<'a>(alloc: Global, runs: &mut Vec<Vec<Node<'a>>>, node: Node<'a>) -> Result<(), Memory>
    ensures { OnOk result (IsGrown (groups_held runs.old.items) (groups_held runs.new.items) (vertex_held node.entry)) }
{
    let first = alone(alloc, node)?;
    runs.push(first)?;
    Ok(())
}

/// One event more, behind the others: beside the last ones where it is of their worker.
fn add_node<'a>(alloc: Global, runs: &mut Vec<Vec<Node<'a>>>, node: &Node<'a>) -> Result<(), Memory>
    ensures { OnOk result (IsGrown (groups_held runs.old.items) (groups_held runs.new.items) (vertex_held node.now)) }
{
    let count = runs.len();
    if count == 0 {
        return begin(alloc, runs, *node);
    }
    if !begins_with_one_of(&runs[count - 1], node.worker) {
        return begin(alloc, runs, *node);
    }
    runs[count - 1].push(*node)?;
    Ok(())
}

/// These events, by neighbours of one worker.
pub(crate) fn runs<'a>(alloc: Global, nodes: &[Node<'a>]) -> Result<Vec<Vec<Node<'a>>>, Memory>
    ensures runs { IfOk result (λ runs. AreRuns (groups_held runs.items)) }
    ensures laid { IfOk result (λ runs. laid (groups_held runs.items) ≡ map vertex_held nodes.now) }
{
    let mut runs = Vec::new(alloc);
    for node in nodes {
        add_node(alloc, &mut runs, node)?;
    }
    Ok(runs)
}

/// Whether an edge may go from an event to one of this worker.
fn may_lead(a: Node<'_>, worker: u32) -> bool
    ensures { result ≡ may_lead_of (vertex_held a.entry) worker }
{
    a.worker == worker || may_need(a.kind, worker)
}

/// Adds the numbers of those of a run, the first of which has this number, to which such an edge goes.
fn add_followed(
    row: &mut Vec<usize>,
    edges: Edges,
    a: Node<'_>,
    first: usize,
    run: &[Node<'_>],
) -> Result<(), Memory>
    ensures { OnOk result (row.new.items ≡ row.old.items ++ passing (is_edge_by edges (vertex_held a.entry)) first (map vertex_held run.now)) }
{
    let mut number = first;
    for b in run {
        let there = is_edge(edges, a, *b);
        push_if(row, number, there)?;
        number = number.checked_add(1).ok_or(Memory)?;
    }
    Ok(())
}

/// The same of a run of this worker.
fn add_of_worker(
    row: &mut Vec<usize>,
    edges: Edges,
    a: Node<'_>,
    worker: u32,
    first: usize,
    run: &[Node<'_>],
) -> Result<(), Memory>
    requires { AreOf worker (map vertex_held run.now) }
    ensures { OnOk result (row.new.items ≡ row.old.items ++ passing (is_edge_by edges (vertex_held a.entry)) first (map vertex_held run.now)) }
{
    if may_lead(a, worker) {
        return add_followed(row, edges, a, first, run);
    }
    Ok(())
}

/// The same of a run. Looks at its first one alone where no edge may go to its worker.
fn add_of_run(
    row: &mut Vec<usize>,
    edges: Edges,
    a: Node<'_>,
    first: usize,
    run: &[Node<'_>],
) -> Result<(), Memory>
    requires { IsRun (map vertex_held run.now) }
    ensures { OnOk result (row.new.items ≡ row.old.items ++ passing (is_edge_by edges (vertex_held a.entry)) first (map vertex_held run.now)) }
{
    match run.get(0) {
        Some(b) => add_of_worker(row, edges, a, b.worker, first, run),
        None => Ok(()),
    }
}

/// Adds the numbers of all to which such an edge goes.
fn add_all_followed(
    row: &mut Vec<usize>,
    edges: Edges,
    a: Node<'_>,
    runs: &[Vec<Node<'_>>],
) -> Result<(), Memory>
    requires { AreRuns (groups_held runs.now) }
    ensures { OnOk result (row.new.items ≡ row.old.items ++ passing (is_edge_by edges (vertex_held a.entry)) 0 (laid (groups_held runs.now))) }
{
    let mut first: usize = 0;
    for run in runs {
        add_of_run(row, edges, a, first, run)?;
        let after = behind(first, run.len())?;
        first = after;
    }
    Ok(())
}

/// The numbers of those to which such an edge goes from one of them.
fn followed(
    alloc: Global,
    edges: Edges,
    runs: &[Vec<Node<'_>>],
    a: Node<'_>,
) -> Result<Vec<usize>, Memory>
    requires { AreRuns (groups_held runs.now) }
    ensures { IfOk result (λ row. row.items ≡ passing (is_edge_by edges (vertex_held a.entry)) 0 (laid (groups_held runs.now))) }
{
    let mut row = Vec::new(alloc);
    add_all_followed(&mut row, edges, a, runs)?;
    Ok(row)
}

/// Adds the numbers of those to which such an edge goes from each of a run.
fn add_rows(
    alloc: Global,
    graph: &mut Vec<Vec<usize>>,
    edges: Edges,
    runs: &[Vec<Node<'_>>],
    run: &[Node<'_>],
) -> Result<(), Memory>
    requires { AreRuns (groups_held runs.now) }
    ensures { OnOk result (map (λ v. v.items) graph.new.items ≡ map (λ v. v.items) graph.old.items ++ map (λ a. passing (is_edge_by edges a) 0 (laid (groups_held runs.now))) (map vertex_held run.now)) }
{
    for a in run {
        let row = followed(alloc, edges, runs, *a)?;
        graph.push(row)?;
    }
    Ok(())
}

/// Of each of these events the numbers of those to which such edges go. An event costs a look at each run, and at the events of those to
/// which an edge may go; the memory grows with the edges.
pub(crate) fn graph(
    alloc: Global,
    edges: Edges,
    runs: &[Vec<Node<'_>>],
) -> Result<Vec<Vec<usize>>, Memory>
    requires { AreRuns (groups_held runs.now) }
    ensures { IfOk result (λ graph. map (λ v. v.items) graph.items ≡ graph_by (is_edge_by edges) (laid (groups_held runs.now))) }
{
    let mut graph = Vec::new(alloc);
    for run in runs {
        add_rows(alloc, &mut graph, edges, runs, run)?;
    }
    Ok(graph)
}
