//! What is close to the events of workers in turn: the event right before, and what is needed.
#![tactic(auto)]

ghost use Rattle.std.specs.Prelude.{◌≡◌, ◌+◌, ◌++◌, IfOk, OnOk, map};
ghost use Rattle.worker_members.specs.Held.{kind_of};
ghost use Rattle.worker_ranks.specs.inner.Vertices.{needs_other, passing, vertex_held};
ghost use Rattle.worker_ranks.specs.inner.Turned.{AreGroups, AreOf, close_row as close_row_of, close_rows, groups_held, laid, may_need as may_need_of};

use crate::nodes::{Node, is_named, is_peer, needs, push_if};
use bal_base::Memory;
use std::alloc::Global;
use worker_members::SaidKind;

/// Whether an event may need one of this worker.
pub(crate) fn may_need(kind: SaidKind<'_>, worker: u32) -> bool
    ensures { result ≡ may_need_of (kind_of kind.entry) worker }
{
    match kind {
        SaidKind::Receive(peer) | SaidKind::Done(peer) => is_peer(peer, worker),
        SaidKind::Flush(peer) => is_peer(peer, worker),
        SaidKind::Wait(names) => is_named(names, worker),
        SaidKind::Send(_) | SaidKind::Post(_) | SaidKind::End => false,
    }
}

/// Adds the numbers of those of a group, the first of which has this number, that an event needs.
fn add_needed(
    row: &mut Vec<usize>,
    a: Node<'_>,
    first: usize,
    group: &[Node<'_>],
) -> Result<(), Memory>
    ensures { OnOk result (row.new.items ≡ row.old.items ++ passing (needs_other (kind_of a.entry.kind) (vertex_held a.entry)) first (map vertex_held group.now)) }
{
    let mut number = first;
    for b in group {
        let there = needs(a, *b);
        push_if(row, number, there)?;
        number = number.checked_add(1).ok_or(Memory)?;
    }
    Ok(())
}

/// The same of a group that is this worker's. Looks at none where the event needs none of the worker.
fn add_of_group(
    row: &mut Vec<usize>,
    a: Node<'_>,
    worker: u32,
    first: usize,
    group: &[Node<'_>],
) -> Result<(), Memory>
    requires { AreOf worker (map vertex_held group.now) }
    ensures { OnOk result (row.new.items ≡ row.old.items ++ passing (needs_other (kind_of a.entry.kind) (vertex_held a.entry)) first (map vertex_held group.now)) }
{
    if may_need(a.kind, worker) {
        return add_needed(row, a, first, group);
    }
    Ok(())
}

/// The number that comes so many behind another one.
pub(crate) fn behind(number: usize, count: usize) -> Result<usize, Memory>
    ensures { IfOk result (λ n. n ≡ number + count) }
{
    number.checked_add(count).ok_or(Memory)
}

/// The worker behind another one.
fn next_worker(worker: u32) -> Result<u32, Memory>
    ensures { IfOk result (λ n. n ≡ worker + 1) }
{
    worker.checked_add(1).ok_or(Memory)
}

/// Adds the numbers of all that an event needs.
fn add_all_needed(row: &mut Vec<usize>, a: Node<'_>, groups: &[Vec<Node<'_>>]) -> Result<(), Memory>
    requires { AreGroups 0 (groups_held groups.now) }
    ensures { OnOk result (row.new.items ≡ row.old.items ++ passing (needs_other (kind_of a.entry.kind) (vertex_held a.entry)) 0 (laid (groups_held groups.now))) }
{
    let mut worker: u32 = 0;
    let mut first: usize = 0;
    for group in groups {
        add_of_group(row, a, worker, first, group)?;
        let next = next_worker(worker)?;
        let after = behind(first, group.len())?;
        worker = next;
        first = after;
    }
    Ok(())
}

/// The numbers of those that are close to an event with this number.
fn close_row(
    alloc: Global,
    groups: &[Vec<Node<'_>>],
    a: Node<'_>,
    number: usize,
) -> Result<Vec<usize>, Memory>
    requires { AreGroups 0 (groups_held groups.now) }
    ensures { IfOk result (λ row. row.items ≡ close_row_of (laid (groups_held groups.now)) number (vertex_held a.entry)) }
{
    let mut row = Vec::new(alloc);
    push_if(&mut row, number.saturating_sub(1), 0 < a.number)?;
    add_all_needed(&mut row, a, groups)?;
    Ok(row)
}

/// Adds the rows of a group, the first of which has this number.
fn add_rows(
    alloc: Global,
    graph: &mut Vec<Vec<usize>>,
    groups: &[Vec<Node<'_>>],
    group: &[Node<'_>],
    first: usize,
) -> Result<(), Memory>
    requires { AreGroups 0 (groups_held groups.now) }
    ensures { OnOk result (map (λ v. v.items) graph.new.items ≡ map (λ v. v.items) graph.old.items ++ close_rows (laid (groups_held groups.now)) first (map vertex_held group.now)) }
{
    let mut number = first;
    for a in group {
        let row = close_row(alloc, groups, *a, number)?;
        graph.push(row)?;
        number = number.checked_add(1).ok_or(Memory)?;
    }
    Ok(())
}

/// Of each event the numbers of those that are close to it. Each costs a look at its own row, and at the events of the workers of which
/// it may need some.
pub(crate) fn close_graph(
    alloc: Global,
    groups: &[Vec<Node<'_>>],
) -> Result<Vec<Vec<usize>>, Memory>
    requires { AreGroups 0 (groups_held groups.now) }
    ensures { IfOk result (λ graph. map (λ v. v.items) graph.items ≡ close_rows (laid (groups_held groups.now)) 0 (laid (groups_held groups.now))) }
{
    let mut graph = Vec::new(alloc);
    let mut first: usize = 0;
    for group in groups {
        add_rows(alloc, &mut graph, groups, group, first)?;
        let after = behind(first, group.len())?;
        first = after;
    }
    Ok(graph)
}
