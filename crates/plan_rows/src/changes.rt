//! Plans that are changed by hand.

use crate::shown::event_named;
use bal_base::{Event, Memory, Place, Row};
use row_lines::first_word;
use std::alloc::Global;
use typed_tree::{Pair, Plan, TypedFunction};

/// The numbers of a worker and of an event of it.
pub type Named = (u64, u64);

/// A change of a plan.
#[derive(Clone, Copy)]
pub enum Change {
    /// None.
    Made,
    /// The pair of this send is left out.
    Without(Named),
    /// The pair of this send is there twice.
    Twice(Named),
    /// The pairs of these two sends have each other's receives.
    Exchanged(Named, Named),
    /// The receive of this send's pair is one byte later in the text.
    Later(Named),
    /// The pairs in the opposite order.
    Turned,
    /// The first event has the rank of the second.
    Ranked(Named, Named),
    /// Each rank is twice as great.
    Doubled,
    /// There is a rank more.
    Longer,
    /// There is a rank less.
    Shorter,
}

/// The change with these words.
pub fn change_named(words: &str) -> Option<Change> {
    let (word, rest) = first_word(words);
    match word {
        "made" => Some(Change::Made),
        "turned" => Some(Change::Turned),
        "doubled" => Some(Change::Doubled),
        "longer" => Some(Change::Longer),
        "shorter" => Some(Change::Shorter),
        _ => change_at(word, rest),
    }
}

/// A change at one event, or at two.
fn change_at(word: &str, rest: &str) -> Option<Change> {
    let (first, second) = first_word(rest);
    let at = event_named(first)?;
    match word {
        "without" => Some(Change::Without(at)),
        "twice" => Some(Change::Twice(at)),
        "later" => Some(Change::Later(at)),
        "exchanged" => Some(Change::Exchanged(at, event_named(second)?)),
        "ranked" => Some(Change::Ranked(at, event_named(second)?)),
        _ => None,
    }
}

/// The plan of the function with the change.
pub fn changed(
    alloc: Global,
    f: &TypedFunction,
    made: &Plan,
    change: Change,
) -> Result<Plan, Memory> {
    let pairs = changed_pairs(alloc, made.pairs.as_slice(), change)?;
    let ranks = changed_ranks(alloc, f, made.ranks.as_slice(), change)?;
    Ok(Plan {
        pairs: Row::of(pairs),
        ranks: Row::of(ranks),
    })
}

fn is_event(e: Event, named: Named) -> bool {
    u64::from(e.worker) == named.0 && u64::from(e.number) == named.1
}

fn changed_pairs(alloc: Global, pairs: &[Pair], change: Change) -> Result<Vec<Pair>, Memory> {
    let mut all = Vec::new(alloc);
    for place in 0..pairs.len() {
        if let Some(pair) = pairs.get(taken_from(pairs.len(), place, change)) {
            add_changed(&mut all, pairs, *pair, change)?;
        }
    }
    Ok(all)
}

/// From where among so many pairs that of a place is taken.
fn taken_from(count: usize, place: usize, change: Change) -> usize {
    match change {
        Change::Turned => count.saturating_sub(1).saturating_sub(place),
        _ => place,
    }
}

/// A pair as the change has it, as often as it has it.
fn add_changed(
    all: &mut Vec<Pair>,
    pairs: &[Pair],
    pair: Pair,
    change: Change,
) -> Result<(), Memory> {
    let changed = changed_pair(pairs, pair, change);
    for _ in 0..times(pair, change) {
        all.push(changed)?;
    }
    Ok(())
}

/// How often the pair is there.
fn times(pair: Pair, change: Change) -> u32 {
    match change {
        Change::Without(send) => one_or(pair, send, 0),
        Change::Twice(send) => one_or(pair, send, 2),
        _ => 1,
    }
}

fn one_or(pair: Pair, send: Named, other: u32) -> u32 {
    if is_event(pair.send, send) { other } else { 1 }
}

fn changed_pair(pairs: &[Pair], pair: Pair, change: Change) -> Pair {
    match change {
        Change::Later(send) => later_if(pair, send),
        Change::Exchanged(first, second) => exchanged(pairs, pair, first, second),
        _ => pair,
    }
}

fn later_if(pair: Pair, send: Named) -> Pair {
    if is_event(pair.send, send) {
        later(pair)
    } else {
        pair
    }
}

fn exchanged(pairs: &[Pair], pair: Pair, first: Named, second: Named) -> Pair {
    if is_event(pair.send, first) {
        return with_receive(pairs, pair, second);
    }
    if is_event(pair.send, second) {
        return with_receive(pairs, pair, first);
    }
    pair
}

fn later(pair: Pair) -> Pair {
    let receive = pair.receive;
    let at = Place {
        file: receive.at.file,
        at: receive.at.at.saturating_add(1),
    };
    Pair {
        send: pair.send,
        receive: Event {
            worker: receive.worker,
            number: receive.number,
            at,
        },
    }
}

/// The pair with the receive of another one.
fn with_receive(pairs: &[Pair], pair: Pair, other: Named) -> Pair {
    for p in pairs {
        if is_event(p.send, other) {
            return Pair {
                send: pair.send,
                receive: p.receive,
            };
        }
    }
    pair
}

fn changed_ranks(
    alloc: Global,
    f: &TypedFunction,
    ranks: &[u32],
    change: Change,
) -> Result<Vec<u32>, Memory> {
    let mut all = Vec::new(alloc);
    for (e, rank) in f.events.as_slice().iter().zip(ranks) {
        all.push(changed_rank(f, ranks, e.event, *rank, change))?;
    }
    end_changed(&mut all, change)?;
    Ok(all)
}

fn end_changed(ranks: &mut Vec<u32>, change: Change) -> Result<(), Memory> {
    match change {
        Change::Longer => ranks.push(u32::MAX)?,
        Change::Shorter => {
            let _last = ranks.pop();
        }
        _ => {}
    }
    Ok(())
}

fn changed_rank(f: &TypedFunction, ranks: &[u32], e: Event, rank: u32, change: Change) -> u32 {
    match change {
        Change::Ranked(first, second) => {
            if is_event(e, first) {
                rank_of(f, ranks, second).unwrap_or(rank)
            } else {
                rank
            }
        }
        Change::Doubled => rank.saturating_mul(2),
        _ => rank,
    }
}

/// The rank of an event.
pub fn rank_of(f: &TypedFunction, ranks: &[u32], named: Named) -> Option<u32> {
    for (e, rank) in f.events.as_slice().iter().zip(ranks) {
        if is_event(e.event, named) {
            return Some(*rank);
        }
    }
    None
}
