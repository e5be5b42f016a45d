//! Tables of fillers.
ghost use Rattle.std.specs.Prelude.{◌≡◌, IfOk, length};
ghost use Rattle.bal_base.specs.Stops.{IfFault};
ghost use Rattle.code_verifier.specs.LedTo.{SomePasses};
ghost use Rattle.list_fillers.specs.Candidates.{KnowsCandidates};
ghost use Rattle.filler_tables.specs.Asked.{AsksFillers};
ghost use Rattle.filler_tables.specs.Tables.{IsFillerTable};

use crate::candidates::all_candidates;
use crate::chosen::all_chosen;
use crate::rounds::settle;
use bal_base::{Memory, Row, Stop};
use list_fillers::Candidate;
use std::alloc::Global;
use type_model::{AtomDef, TypeLimit, Types};
use value_model::FillerList;

/// The table of atoms with these candidates.
fn table(
    alloc: Global,
    defs: &[AtomDef],
    rows: &[Row<Candidate>],
) -> Result<Vec<FillerList>, Memory>
    requires { KnowsCandidates defs.now rows.now }
    ensures table { IfOk result (λ made. IsFillerTable defs.now made.items) }
    ensures rows { IfOk result (λ made. length made.items ≡ length rows.now) }
{
    let marks = settle(alloc, defs, rows)?;
    all_chosen(alloc, &marks, rows)
}

/// The same over types.
fn table_over<T: Types>(
    alloc: Global,
    types: &T,
    rows: &[Row<Candidate>],
) -> Result<Vec<FillerList>, Stop<TypeLimit>>
    requires { KnowsCandidates (T.atoms types.now) rows.now }
    ensures table { IfOk result (λ made. IsFillerTable (T.atoms types.now) made.items) }
    ensures rows { IfOk result (λ made. length made.items ≡ length rows.now) }
    ensures limit { IfFault result (λ _. ⊥) }
{
    match table(alloc, types.env().defs(), rows) {
        Ok(made) => Ok(made),
        Err(Memory) => Err(Stop::Memory),
    }
}

/// For each atom, by its number, the fillers of the places of its lists: of each fixed place, and then of the rest;
/// `Nothing` where none fills the place. An atom that is none of lists has no places. The filler of a type is the first
/// of these that there is: nil where it has nil; the value where it has one simple value alone; `false`, `0` or `""`
/// where it has that and only values of its kind; a new list or a new empty mapping of the one atom of which a constructor
/// may make its values, where it has exactly the atom's shapes, and the list's fixed places all have a filler, or the
/// mapping has no required field (the filler value of a type, in the specification's section on lists). It costs at most
/// seven questions for each place, a copy of each type, and then at most two rounds more than there are atoms over all
/// fixed places. `TypeLimit` where one of the questions is too large.
pub fn fillers_of<T: Types>(
    alloc: Global,
    types: &mut T,
) -> Result<Vec<FillerList>, Stop<TypeLimit>>
    ensures atoms { T.atoms types.new ≡ T.atoms types.old }
    ensures table { IfOk result (λ made. IsFillerTable (T.atoms types.old) made.items) }
    ensures rows { IfOk result (λ made. length made.items ≡ length (T.atoms types.old)) }
    ensures limit { IfFault result (SomePasses T.passes (T.atoms types.old) (AsksFillers (T.atoms types.old))) }
{
    match all_candidates(alloc, types) {
        Ok(rows) => table_over(alloc, &*types, &rows),
        Err(stop) => Err(stop),
    }
}
