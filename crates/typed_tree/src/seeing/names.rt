//! The numbers of workers by their names.
ghost use Rattle.std.specs.Prelude.{◌≡◌, ◌++◌, [], IfOk, OnOk};
ghost use Rattle.typed_tree.specs.Skeleton.{and_then, number_from, number_of, number_of_member, number_of_name, other_than, peer_number, waited, waited_members};

use bal_base::{Memory, Name};
use bal_tree::{Peer, Prefix, QualifiedName, WaitMember, Worker};
use std::alloc::Global;

/// The number of the first worker with the name.
fn worker(workers: &[Worker], name: &Name) -> Result<Option<u32>, Memory>
    ensures { IfOk result (λ n. n ≡ number_from 1 workers.now name.now) }
{
    let mut number: u32 = 1;
    for w in workers {
        if w.name.name == *name {
            return Ok(Some(number));
        }
        number = number.checked_add(1).ok_or(Memory)?;
    }
    Ok(None)
}

/// The number of the worker that an action of the worker `own` names, if it is another one.
pub fn peer(workers: &[Worker], own: u32, peer: &Peer) -> Result<Option<u32>, Memory>
    ensures { IfOk result (λ n. n ≡ peer_number workers.now own peer.now) }
{
    match peer {
        Peer::Word(w) => Ok(other(own, worker(workers, &w.name)?)),
        Peer::Function { .. } => Ok(other(own, Some(0))),
    }
}

fn other(own: u32, number: Option<u32>) -> Option<u32>
    ensures { result ≡ other_than own number }
{
    match number {
        None => None,
        Some(n) => { if n == own { None } else { Some(n) } }
    }
}

/// The number of the worker that a wait names, where the name is that of one.
fn named(workers: &[Worker], prefix: &Option<Prefix>, name: &Name) -> Result<Option<u32>, Memory>
    ensures { IfOk result (λ n. n ≡ number_of_name workers.now prefix.now name.now) }
{
    match prefix {
        None => worker(workers, name),
        Some(_) => Ok(None),
    }
}

/// The workers among the names of a wait.
pub fn among(alloc: Global, workers: &[Worker], names: &[QualifiedName]) -> Result<Vec<u32>, Memory>
    ensures { IfOk result (λ ns. ns.items ≡ waited workers.now names.now) }
{
    let mut numbers = Vec::new(alloc);
    for q in names {
        let number = of_name(workers, q)?;
        add(&mut numbers, number)?;
    }
    Ok(numbers)
}

fn of_name(workers: &[Worker], q: &QualifiedName) -> Result<Option<u32>, Memory>
    ensures { IfOk result (λ n. n ≡ number_of workers.now q.now) }
{
    named(workers, &q.prefix, &q.word.name)
}

/// The workers among the names of a wait on all.
pub fn among_members(
    alloc: Global,
    workers: &[Worker],
    members: &[WaitMember],
) -> Result<Vec<u32>, Memory>
    ensures { IfOk result (λ ns. ns.items ≡ waited_members workers.now members.now) }
{
    let mut numbers = Vec::new(alloc);
    for m in members {
        let number = of_member(workers, m)?;
        add(&mut numbers, number)?;
    }
    Ok(numbers)
}

fn of_member(workers: &[Worker], m: &WaitMember) -> Result<Option<u32>, Memory>
    ensures { IfOk result (λ n. n ≡ number_of_member workers.now m.now) }
{
    of_name(workers, &m.name)
}

fn add(numbers: &mut Vec<u32>, number: Option<u32>) -> Result<(), Memory>
    ensures { OnOk result (numbers.new.items ≡ numbers.old.items ++ and_then number []) }
{
    if let Some(n) = number {
        numbers.push(n)?;
    }
    Ok(())
}
