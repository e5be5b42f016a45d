//! Rounds over all atoms: which lists can be filled.
ghost use Rattle.std.specs.Prelude.{◌≡◌, ◌↔◌, [], All, IfOk, IsTrue, false, get_or, length, take};
ghost use Rattle.std.specs.List.{count_by};
ghost use Rattle.list_fillers.specs.Candidates.{KnowsCandidates};
ghost use Rattle.list_fillers.specs.Marks.{AreSound, CanFill, IsRound, has_filler as has_filler_by, is_marked as is_marked_in};

use bal_base::{Memory, Row};
use list_fillers::Candidate;
use std::alloc::Global;
use type_model::AtomDef;

/// Whether the atom is marked.
pub(crate) fn is_marked(marks: &[bool], a: u32) -> bool
    ensures { result ≡ is_marked_in marks.now a }
{
    match marks.get(a as usize) {
        Some(mark) => *mark,
        None => false,
    }
}

/// Whether a type with this candidate has a filler.
fn has_filler(marks: &[bool], c: &Candidate) -> bool
    ensures { result ≡ has_filler_by marks.now c.now }
{
    match c {
        Candidate::Settled(_) => true,
        Candidate::OfList(a) => is_marked(marks, *a),
        Candidate::Without => false,
    }
}

/// At most so many candidates, from the first on.
fn first(row: &[Candidate], count: usize) -> &[Candidate]
    ensures { result.now ≡ take count row.now }
{
    if count < row.len() {
        &row[..count]
    } else {
        row
    }
}

/// Whether each of them has a filler.
fn all_have(marks: &[bool], row: &[Candidate]) -> bool
    ensures { IsTrue result ↔ All (λ c. IsTrue (has_filler_by marks.now c)) row.now }
{
    row.iter().all(|c| has_filler(marks, c))
}

/// Whether the atom is one of lists that can be filled: each fixed place has a filler.
fn can_fill(marks: &[bool], def: &AtomDef, row: &[Candidate]) -> bool
    ensures { IsTrue result ↔ CanFill marks.now def.now row.now }
{
    match def {
        AtomDef::List { fixed, .. } => all_have(marks, first(row, fixed.as_slice().len())),
        AtomDef::Mapping { .. } | AtomDef::Arrow { .. } => false,
        AtomDef::Error { .. } | AtomDef::Future { .. } => false,
    }
}

/// The candidates of the atom.
pub(crate) fn row_at(rows: &[Row<Candidate>], a: usize) -> &[Candidate]
    ensures { result.now ≡ get_or rows.now a [] }
{
    match rows.get(a) {
        Some(row) => row.as_slice(),
        None => &[],
    }
}

/// The marks of the next round: of the atoms that can be filled by those before.
fn round(
    alloc: Global,
    defs: &[AtomDef],
    rows: &[Row<Candidate>],
    marks: &[bool],
) -> Result<Vec<bool>, Memory>
    ensures round { IfOk result (λ next. IsRound defs.now rows.now marks.now next.items) }
    ensures length { IfOk result (λ next. length next.items ≡ length defs.now) }
{
    let mut next = Vec::new(alloc);
    for (a, def) in defs.iter().enumerate() {
        next.push(can_fill(marks, def, row_at(rows, a)))?;
    }
    Ok(next)
}

/// How many atoms are marked.
fn marked(marks: &[bool]) -> usize
    ensures { result ≡ count_by (λ m. m) marks.now }
{
    marks.iter().filter(|m| **m).count()
}

/// The marks of all atoms whose lists can be filled. There are at most two rounds more than there are atoms, since each but
/// the first and the last marks one more; each looks at each fixed place once.
pub(crate) fn settle(
    alloc: Global,
    defs: &[AtomDef],
    rows: &[Row<Candidate>],
) -> Result<Vec<bool>, Memory>
    requires { KnowsCandidates defs.now rows.now }
    ensures sound { IfOk result (λ marks. AreSound defs.now rows.now marks.items) }
    ensures still { IfOk result (λ marks. IsRound defs.now rows.now marks.items marks.items) }
{
    let mut marks = round(alloc, defs, rows, &[])?;
    for _turn in 0..defs.len() + 1 {
        let next = round(alloc, defs, rows, &marks)?;
        if marked(&next) == marked(&marks) {
            return Ok(marks);
        }
        marks = next;
    }
    unreachable!()
}
