//! The structures that are made for fillers, level by level.
ghost use Rattle.std.specs.Prelude.{◌≡◌, ◌+◌, ◌++◌, ◌∷◌, [], ℕ, IfOk, OnOk, count_by, flat_map, length, map};
ghost use Rattle.std.specs.List.{sum_by};
ghost use Rattle.op_model.specs.Fillers as model;
ghost use Rattle.op_model.specs.Levels.{all_of, levels};
ghost use Rattle.plain_run.specs.Came.{IsLeft};
ghost use Rattle.plain_run.specs.Held.{structure_of};
ghost use Rattle.plain_stores.specs.Changes as changes;
ghost use Rattle.store_tests.specs.Fillers.{fixed_of, is_there};

use crate::filling::values_of;
use bal_base::Memory;
use plain_run::{
    Entries, MOST_CELLS, Members, ProgramFacts, Structure, left_beside, new_structure,
};
use std::alloc::Global;
use store_tests::{fixed_fillers, is_filler, push_new};
use value_model::Filler;

/// Fillers for which structures are made, and what these leave of the room of a heap.
#[derive(Drop)]
pub(crate) struct Made {
    pub(crate) fillers: Vec<Filler>,
    pub(crate) left: u64,
}

/// The fillers of the members of a new structure.
fn inner_fillers<'a>(facts: &'a ProgramFacts<'_>, f: &Filler) -> &'a [Filler]
    ensures { result.now ≡ model.inner_fillers (fixed_of facts.now) f.now }
{
    match f {
        Filler::List(atom) => fixed_fillers(facts, *atom),
        Filler::Mapping(_) | Filler::Nothing | Filler::Nil => &[],
        Filler::Bool(_) | Filler::Int(_) | Filler::Str(_) => &[],
    }
}

// ---- the room that they take

/// How many of them are there.
fn count(fillers: &[Filler]) -> usize
    ensures { result ≡ count_by is_there fillers.now }
{
    fillers.iter().filter(|f| is_filler(f)).count()
}

/// What the structure of a filler leaves of a room of which so much is left.
fn less_one(facts: &ProgramFacts<'_>, f: &Filler, left: Option<u64>) -> Option<u64>
    ensures { (room taken : ℕ) → IsLeft room taken left → IsLeft room (taken + changes.filler_cells facts.now f.now) result }
{
    match f {
        Filler::List(atom) => left_beside(left, count(fixed_fillers(facts, *atom)) as u64),
        Filler::Mapping(_) => left_beside(left, 0),
        Filler::Nothing | Filler::Nil => left,
        Filler::Bool(_) | Filler::Int(_) | Filler::Str(_) => left,
    }
}

/// What the structures of fillers leave of a room of which so much is left.
fn less_all(facts: &ProgramFacts<'_>, fillers: &[Filler], start: Option<u64>) -> Option<u64>
    ensures { (room taken : ℕ) → IsLeft room taken start → IsLeft room (taken + sum_by (changes.filler_cells facts.now) fillers.now) result }
{
    let mut left = start;
    for f in fillers {
        left = less_one(facts, f, left);
    }
    left
}

// ---- which are made

/// Those for which the members of these ask.
fn kids_of(alloc: Global, facts: &ProgramFacts<'_>, level: &[Filler]) -> Result<Vec<Filler>, Memory>
    ensures { IfOk result (λ fs. fs.items ≡ flat_map (changes.kids facts.now) level.now) }
{
    let mut all = Vec::new(alloc);
    for f in level {
        push_new(&mut all, inner_fillers(facts, f))?;
    }
    Ok(all)
}

/// How many levels there may be: none where nothing is made at all.
pub(crate) fn depth_for(facts: &ProgramFacts<'_>, roots: &[Filler]) -> usize
    ensures { levels all_of (changes.kids facts.now) roots.now result ≡ levels all_of (changes.kids facts.now) roots.now (length facts.now.atoms.now) }
{
    match roots {
        [] => 0,
        _ => facts.atoms.defs().len(),
    }
}

/// All that are made for these, level by level, for so many levels, where they fit in the room of a heap.
pub(crate) fn made_for(
    alloc: Global,
    facts: &ProgramFacts<'_>,
    roots: Vec<Filler>,
    depth: usize,
) -> Result<Option<Made>, Memory>
    ensures { IfOk result (changes.AreMade facts.now roots.items depth) }
{
    let mut made = Vec::new(alloc);
    let mut level = roots;
    let mut room = MOST_CELLS;
    for _level in 0..depth {
        match less_all(facts, level.as_slice(), Some(room)) {
            None => return Ok(None),
            Some(left) => room = left,
        }
        let kids = kids_of(alloc, facts, level.as_slice())?;
        made.append(&mut level)?;
        level = kids;
    }
    Ok(Some(Made {
        fillers: made,
        left: room,
    }))
}

// ---- the structures

/// The structure of a filler behind the others, where one is made for it; and the next number behind its members'.
fn push_made(
    alloc: Global,
    facts: &ProgramFacts<'_>,
    next: u32,
    f: &Filler,
    made: &mut Vec<Structure>,
) -> Result<u32, Memory>
    ensures structures { OnOk result (map structure_of made.new.items ≡ map structure_of made.old.items ++ model.filler_structures (fixed_of facts.now) next (f.now ∷ [])) }
    ensures next { IfOk result (λ n. n ≡ next + length (changes.kids facts.now f.now)) }
{
    match f {
        Filler::List(atom) => {
            let inside = values_of(alloc, next, fixed_fillers(facts, *atom))?;
            made.push(new_structure(Some(*atom), true, Members::Items(inside.values)))?;
            Ok(inside.next)
        }
        Filler::Mapping(atom) => {
            made.push(new_structure(Some(*atom), true, Members::Entries(Entries::new(alloc))))?;
            Ok(next)
        }
        Filler::Nothing | Filler::Nil => Ok(next),
        Filler::Bool(_) | Filler::Int(_) | Filler::Str(_) => Ok(next),
    }
}

/// The structures of fillers, where those that are made for their members are numbered from one on.
pub(crate) fn structures(
    alloc: Global,
    facts: &ProgramFacts<'_>,
    first: u32,
    fillers: &[Filler],
) -> Result<Vec<Structure>, Memory>
    ensures { IfOk result (λ ss. map structure_of ss.items ≡ model.filler_structures (fixed_of facts.now) first fillers.now) }
{
    let mut made = Vec::new(alloc);
    let mut next = first;
    for f in fillers {
        next = push_made(alloc, facts, next, f, &mut made)?;
    }
    Ok(made)
}
