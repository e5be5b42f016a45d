//! Candidates: what is known of fillers before it is known which lists can be filled.
ghost use Rattle.std.specs.Prelude.{◌≡◌, ◌<◌, ◌↔◌, All, IfOk, IsSomeAnd, IsTrue, List, length, slice_get};
ghost use Rattle.std.specs.List.{AllZip};
ghost use Rattle.bal_base.specs.Stops.{IfFault};
ghost use Rattle.type_model.specs.declared.atoms.AtomDef.{AtomDef as Definition};
ghost use Rattle.type_model.specs.Defined.{IsDefined};
ghost use Rattle.value_model.specs.Exact.{HasNoRequired};
ghost use Rattle.code_verifier.specs.LedTo.{SomePasses};
ghost use Rattle.list_fillers.specs.Candidates.{AreCandidates, KnowsCandidates};
ghost use Rattle.filler_tables.specs.Asked.{AsksAtom, AsksFillers, AsksMade, AsksOfAtom, AsksPlace, AsksPlaces};
ghost use Rattle.filler_tables.specs.inner.Telling.{IsCandidateAt, IsList, IsMade, IsMapping, IsOfShapes, IsSimple, LacksRequired, MadeBelow, PlaceBelow};

use crate::asking::{has_atom, is_within_atom};
use crate::places::{Made, Place, atom_places};
use crate::simple::{Simple, simple_filler};
use bal_base::{Memory, Row, Stop};
use list_fillers::Candidate;
use std::alloc::Global;
use type_model::{AtomDef, SemType, TypeLimit, Types};
use value_model::Filler;

/// Whether the type has exactly the shapes of the atom.
fn is_of_atom<T: Types>(
    alloc: Global,
    types: &mut T,
    t: &SemType,
    a: u32,
) -> Result<bool, Stop<TypeLimit>>
    requires defined { IsDefined (T.atoms types.old) t.now }
    requires atom { a < length (T.atoms types.old) }
    ensures atoms { T.atoms types.new ≡ T.atoms types.old }
    ensures shapes { IfOk result (IsOfShapes (T.atoms types.old) t.now a) }
    ensures limit { IfFault result (SomePasses T.passes (T.atoms types.old) (AsksAtom t.now a)) }
{
    match is_within_atom(alloc, types, t, a) {
        Ok(true) => has_atom(alloc, types, t, a),
        Ok(false) => Ok(false),
        Err(stop) => Err(stop),
    }
}

/// Whether the definition is one of mappings without required fields.
fn requires_nothing(def: &AtomDef) -> bool
    ensures { (env : List Definition) → IsTrue result ↔ HasNoRequired env def.now }
{
    match def {
        AtomDef::Mapping { fields, .. } => fields.as_slice().iter().all(|f| f.optional),
        AtomDef::List { .. } | AtomDef::Arrow { .. } => false,
        AtomDef::Error { .. } | AtomDef::Future { .. } => false,
    }
}

/// The same of the atom with this number.
fn lacks_required<T: Types>(types: &T, a: u32) -> bool
    requires { a < length (T.atoms types.now) }
    ensures { IsTrue result ↔ LacksRequired (T.atoms types.now) a }
{
    let defs = types.env().defs();
    let at = a as usize;
    requires_nothing(&defs[at])
}

/// What a type has, the one choice of which is this atom of lists.
fn of_list<T: Types>(
    alloc: Global,
    types: &mut T,
    t: &SemType,
    a: u32,
) -> Result<Candidate, Stop<TypeLimit>>
    requires defined { IsDefined (T.atoms types.old) t.now }
    requires atom { a < length (T.atoms types.old) }
    ensures atoms { T.atoms types.new ≡ T.atoms types.old }
    ensures candidate { IfOk result (IsList (T.atoms types.old) t.now a) }
    ensures limit { IfFault result (SomePasses T.passes (T.atoms types.old) (AsksAtom t.now a)) }
{
    match is_of_atom(alloc, types, t, a) {
        Ok(true) => Ok(Candidate::OfList(a)),
        Ok(false) => Ok(Candidate::Without),
        Err(stop) => Err(stop),
    }
}

/// What a type has, the one choice of which is this atom of mappings without required fields.
fn of_open_mapping<T: Types>(
    alloc: Global,
    types: &mut T,
    t: &SemType,
    a: u32,
) -> Result<Candidate, Stop<TypeLimit>>
    requires defined { IsDefined (T.atoms types.old) t.now }
    requires atom { a < length (T.atoms types.old) }
    requires lacks { LacksRequired (T.atoms types.old) a }
    ensures atoms { T.atoms types.new ≡ T.atoms types.old }
    ensures candidate { IfOk result (IsMapping (T.atoms types.old) t.now a) }
    ensures limit { IfFault result (SomePasses T.passes (T.atoms types.old) (AsksAtom t.now a)) }
{
    match is_of_atom(alloc, types, t, a) {
        Ok(true) => Ok(Candidate::Settled(Filler::Mapping(a))),
        Ok(false) => Ok(Candidate::Without),
        Err(stop) => Err(stop),
    }
}

/// What a type has, the one choice of which is this atom of mappings.
fn of_mapping<T: Types>(
    alloc: Global,
    types: &mut T,
    t: &SemType,
    a: u32,
) -> Result<Candidate, Stop<TypeLimit>>
    requires defined { IsDefined (T.atoms types.old) t.now }
    requires atom { a < length (T.atoms types.old) }
    ensures atoms { T.atoms types.new ≡ T.atoms types.old }
    ensures candidate { IfOk result (IsMapping (T.atoms types.old) t.now a) }
    ensures limit { IfFault result (SomePasses T.passes (T.atoms types.old) (AsksAtom t.now a)) }
{
    if lacks_required(&*types, a) {
        of_open_mapping(alloc, types, t, a)
    } else {
        Ok(Candidate::Without)
    }
}

/// What a type has that has a shape and no simple filler.
fn of_made<T: Types>(
    alloc: Global,
    types: &mut T,
    t: &SemType,
    made: Made,
) -> Result<Candidate, Stop<TypeLimit>>
    requires defined { IsDefined (T.atoms types.old) t.now }
    requires made { MadeBelow (length (T.atoms types.old)) made }
    ensures atoms { T.atoms types.new ≡ T.atoms types.old }
    ensures candidate { IfOk result (IsMade (T.atoms types.old) t.now made) }
    ensures limit { IfFault result (SomePasses T.passes (T.atoms types.old) (AsksMade t.now made)) }
{
    match made {
        Made::List(a) => of_list(alloc, types, t, a),
        Made::Mapping(a) => of_mapping(alloc, types, t, a),
        Made::Otherwise => Ok(Candidate::Without),
    }
}

/// The candidate of a place of which this is the simple filler.
fn by_simple<T: Types>(
    alloc: Global,
    types: &mut T,
    place: &Place,
    simple: Simple,
) -> Result<Candidate, Stop<TypeLimit>>
    requires place { PlaceBelow (length (T.atoms types.old)) place.now }
    requires simple { IsSimple (T.atoms types.old) place.now.sem simple }
    ensures atoms { T.atoms types.new ≡ T.atoms types.old }
    ensures candidate { IfOk result (IsCandidateAt (T.atoms types.old) place.now) }
    ensures limit { IfFault result (SomePasses T.passes (T.atoms types.old) (AsksMade place.now.sem place.now.made)) }
{
    match simple {
        Simple::Filled(f) => Ok(Candidate::Settled(f)),
        Simple::Unfilled => of_made(alloc, types, &place.sem, place.made),
        Simple::Shapeless => Ok(Candidate::Without),
    }
}

/// The candidate of a place, by at most seven questions.
fn candidate<T: Types>(
    alloc: Global,
    types: &mut T,
    place: &Place,
) -> Result<Candidate, Stop<TypeLimit>>
    requires { PlaceBelow (length (T.atoms types.old)) place.now }
    ensures atoms { T.atoms types.new ≡ T.atoms types.old }
    ensures candidate { IfOk result (IsCandidateAt (T.atoms types.old) place.now) }
    ensures limit { IfFault result (SomePasses T.passes (T.atoms types.old) (AsksPlace (T.atoms types.old) place.now)) }
{
    match simple_filler(alloc, types, &place.sem) {
        Ok(simple) => by_simple(alloc, types, place, simple),
        Err(stop) => Err(stop),
    }
}

/// The candidates of these places.
fn candidates<T: Types>(
    alloc: Global,
    types: &mut T,
    places: &[Place],
) -> Result<Row<Candidate>, Stop<TypeLimit>>
    requires { All (PlaceBelow (length (T.atoms types.old))) places.now }
    ensures atoms { T.atoms types.new ≡ T.atoms types.old }
    ensures candidates { IfOk result (AllZip (IsCandidateAt (T.atoms types.old)) places.now) }
    ensures limit { IfFault result (SomePasses T.passes (T.atoms types.old) (AsksPlaces (T.atoms types.old) places.now)) }
{
    let mut found = Vec::new(alloc);
    for p in places {
        let one = candidate(alloc, types, p)?;
        found.push(one)?;
    }
    Ok(Row::of(found))
}

/// The candidates of the places of lists of the atom.
fn atom_candidates<T: Types>(
    alloc: Global,
    types: &mut T,
    atom: usize,
) -> Result<Row<Candidate>, Stop<TypeLimit>>
    requires { atom < length (T.atoms types.old) }
    ensures atoms { T.atoms types.new ≡ T.atoms types.old }
    ensures candidates { IfOk result (λ cs. IsSomeAnd (slice_get (T.atoms types.old) atom) (λ d. AreCandidates (T.atoms types.old) d cs)) }
    ensures limit { IfFault result (SomePasses T.passes (T.atoms types.old) (AsksOfAtom (T.atoms types.old) atom)) }
{
    match atom_places(alloc, &*types, atom) {
        Ok(places) => candidates(alloc, types, &places),
        Err(Memory) => Err(Stop::Memory),
    }
}

/// The candidates of all atoms, by their numbers. `TypeLimit` where a question is too large.
pub(crate) fn all_candidates<T: Types>(
    alloc: Global,
    types: &mut T,
) -> Result<Vec<Row<Candidate>>, Stop<TypeLimit>>
    ensures atoms { T.atoms types.new ≡ T.atoms types.old }
    ensures candidates { IfOk result (λ rows. KnowsCandidates (T.atoms types.old) rows.items) }
    ensures rows { IfOk result (λ rows. length rows.items ≡ length (T.atoms types.old)) }
    ensures limit { IfFault result (SomePasses T.passes (T.atoms types.old) (AsksFillers (T.atoms types.old))) }
{
    let count = types.env().defs().len();
    let mut rows = Vec::new(alloc);
    for a in 0..count {
        let row = atom_candidates(alloc, types, a)?;
        rows.push(row)?;
    }
    Ok(rows)
}
