//! The types of places, out of the definitions of atoms.
ghost use Rattle.std.specs.Prelude.{◌≡◌, ◌<◌, ◌++◌, All, IfOk, IsSomeAnd, List, length, option_to_list, slice_get};
ghost use Rattle.std.specs.List.{AllZip};
ghost use Rattle.type_model.specs.declared.basic.Ty.{Ty as TyOf};
ghost use Rattle.filler_tables.specs.Asked.{IsPlaceOf, made_of, place_types};
ghost use Rattle.filler_tables.specs.inner.Telling.{PlaceBelow};

use bal_base::Memory;
use std::alloc::Global;
use type_model::{AtomDef, Choice, SemType, Ty, Types};

/// The atom of the one constructor choice of a type.
#[derive(Clone, Copy, Drop)]
pub enum Made {
    /// It is this one, of lists.
    List(u32),
    /// It is this one, of mappings.
    Mapping(u32),
    /// There is no choice, or there are several.
    Otherwise,
}

/// The type of a place, with the atom of its one choice.
#[derive(Drop)]
pub struct Place {
    pub sem: SemType,
    pub made: Made,
}

/// The atom of the one choice among these. Takes no memory.
fn one_choice(lists: &[Choice], maps: &[Choice]) -> Made
    ensures { result ≡ made_of lists.now maps.now }
{
    match lists {
        [] => match maps {
            [c] => Made::Mapping(c.atom),
            [] | [_, _, ..] => Made::Otherwise,
        },
        [c] => match maps {
            [] => Made::List(c.atom),
            [_, ..] => Made::Otherwise,
        },
        [_, _, ..] => Made::Otherwise,
    }
}

fn place_of(alloc: Global, t: &Ty) -> Result<Place, Memory>
    ensures { IfOk result (IsPlaceOf t.now) }
{
    let sem = t.sem.copy(alloc)?;
    Ok(Place {
        sem,
        made: one_choice(t.lists.as_slice(), t.maps.as_slice()),
    })
}

fn fixed_places(alloc: Global, fixed: &[Ty]) -> Result<Vec<Place>, Memory>
    ensures { IfOk result (λ ps. AllZip IsPlaceOf fixed.now ps.items) }
{
    let mut places = Vec::new(alloc);
    for t in fixed {
        places.push(place_of(alloc, t)?)?;
    }
    Ok(places)
}

/// The places, and behind them that of the rest, where there is one.
fn with_rest(alloc: Global, places: Vec<Place>, rest: &Option<Ty>) -> Result<Vec<Place>, Memory>
    ensures { (fixed : List TyOf) → AllZip IsPlaceOf fixed places.items → IfOk result (λ ps. AllZip IsPlaceOf (fixed ++ option_to_list rest.now) ps.items) }
{
    match rest {
        Some(t) => {
            let mut places = places;
            places.push(place_of(alloc, t)?)?;
            Ok(places)
        }
        None => Ok(places),
    }
}

fn list_places(alloc: Global, fixed: &[Ty], rest: &Option<Ty>) -> Result<Vec<Place>, Memory>
    ensures { IfOk result (λ ps. AllZip IsPlaceOf (fixed.now ++ option_to_list rest.now) ps.items) }
{
    let places = fixed_places(alloc, fixed)?;
    with_rest(alloc, places, rest)
}

/// The places of lists of this definition.
fn places_of(alloc: Global, def: &AtomDef) -> Result<Vec<Place>, Memory>
    ensures { IfOk result (λ ps. AllZip IsPlaceOf (place_types def.now) ps.items) }
{
    match def {
        AtomDef::List { fixed, rest } => list_places(alloc, fixed.as_slice(), rest),
        AtomDef::Mapping { .. } | AtomDef::Arrow { .. } => Ok(Vec::new(alloc)),
        AtomDef::Error { .. } | AtomDef::Future { .. } => Ok(Vec::new(alloc)),
    }
}

/// The places of lists of the atom.
pub(crate) fn atom_places<T: Types>(
    alloc: Global,
    types: &T,
    atom: usize,
) -> Result<Vec<Place>, Memory>
    requires { atom < length (T.atoms types.now) }
    ensures places { IfOk result (λ ps. IsSomeAnd (slice_get (T.atoms types.now) atom) (λ d. AllZip IsPlaceOf (place_types d) ps.items)) }
    ensures defined { IfOk result (λ ps. All (PlaceBelow (length (T.atoms types.now))) ps.items) }
{
    let defs = types.env().defs();
    places_of(alloc, &defs[atom])
}
