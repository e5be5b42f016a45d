//! The fillers that marks choose.
ghost use Rattle.std.specs.Prelude.{◌≡◌, IfOk, map};
ghost use Rattle.list_fillers.specs.declared.candidate.Candidate.TheVariants.{OfList};
ghost use Rattle.list_fillers.specs.Marks.{chosen as chosen_of};

use crate::rounds::is_marked;
use crate::values::share;
use bal_base::{Memory, Row};
use list_fillers::Candidate;
use std::alloc::Global;
use value_model::{Filler, FillerList};

fn list_filler(marks: &[bool], a: u32) -> Filler
    ensures { result ≡ chosen_of marks.now (OfList a) }
{
    if is_marked(marks, a) {
        Filler::List(a)
    } else {
        Filler::Nothing
    }
}

/// The filler of a type with this candidate, or that there is none. Takes no memory.
fn chosen(marks: &[bool], c: &Candidate) -> Filler
    ensures { result ≡ chosen_of marks.now c.now }
{
    match c {
        Candidate::Settled(f) => share(f),
        Candidate::OfList(a) => list_filler(marks, *a),
        Candidate::Without => Filler::Nothing,
    }
}

/// The fillers of one atom.
fn row(alloc: Global, marks: &[bool], candidates: &[Candidate]) -> Result<FillerList, Memory>
    ensures { IfOk result (λ fs. fs ≡ map (chosen_of marks.now) candidates.now) }
{
    let mut fillers = Vec::new(alloc);
    for c in candidates {
        fillers.push(chosen(marks, c))?;
    }
    Ok(Row::of(fillers))
}

/// The fillers of all atoms.
pub(crate) fn all_chosen(
    alloc: Global,
    marks: &[bool],
    rows: &[Row<Candidate>],
) -> Result<Vec<FillerList>, Memory>
    ensures { IfOk result (λ table. table.items ≡ map (map (chosen_of marks.now)) rows.now) }
{
    let mut table = Vec::new(alloc);
    for candidates in rows {
        table.push(row(alloc, marks, candidates.as_slice())?)?;
    }
    Ok(table)
}
