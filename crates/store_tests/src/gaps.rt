//! Fillers of places, and of gaps in lists.
#![tactic(auto, using(crate::proofs::Gapped::gapped))]

ghost use Rattle.std.specs.Prelude.{◌≡◌, ◌-◌, ◌++◌, ◌∷◌, [], IfOk, OnOk, get_or, take};
ghost use Rattle.std.specs.List.{list_all};
ghost use Rattle.op_model.specs.Fillers as model;
ghost use Rattle.op_model.specs.Fillers.{is_new};
ghost use Rattle.op_model.specs.Stores as stores;
ghost use Rattle.store_tests.specs.Fillers as fillers;
ghost use Rattle.store_tests.specs.Fillers.{is_there};

use bal_base::Memory;
use plain_run::ProgramFacts;
use std::alloc::Global;
use type_model::AtomDef;
use value_model::Filler;

// ---- fillers of atoms

/// The fillers of the fixed places of an atom of lists, and then that of its rest.
fn fillers_for<'a>(facts: &'a ProgramFacts<'_>, atom: u32) -> &'a [Filler]
    ensures { result.now ≡ get_or facts.now.fillers.now atom [] }
{
    match facts.fillers.get(atom as usize) {
        Some(fillers) => fillers.as_slice(),
        None => &[],
    }
}

/// The fillers of a structure of this atom.
pub fn fillers_of<'a>(facts: &'a ProgramFacts<'_>, atom: Option<u32>) -> &'a [Filler]
    ensures { result.now ≡ fillers.atom_fillers facts.now atom }
{
    match atom {
        Some(a) => fillers_for(facts, a),
        None => &[],
    }
}

/// How many places are fixed.
fn fixed_places(d: &AtomDef) -> usize
    ensures { result ≡ stores.fixed_places d.now }
{
    match d {
        AtomDef::List { fixed, .. } => fixed.as_slice().len(),
        AtomDef::Mapping { .. } => 0,
        AtomDef::Arrow { .. } | AtomDef::Error { .. } | AtomDef::Future { .. } => 0,
    }
}

/// So many at the front, or all.
fn front(fillers: &[Filler], count: usize) -> &[Filler]
    ensures { result.now ≡ take count fillers.now }
{
    if count < fillers.len() {
        &fillers[..count]
    } else {
        fillers
    }
}

/// The fillers of the fixed places of an atom of lists.
pub fn fixed_fillers<'a>(facts: &'a ProgramFacts<'_>, atom: u32) -> &'a [Filler]
    ensures { result.now ≡ fillers.fixed_of facts.now atom }
{
    match facts.atoms.defs().get(atom as usize) {
        Some(d) => front(fillers_for(facts, atom), fixed_places(d)),
        None => &[],
    }
}

// ---- fillers of places

/// The same filler again, which shares its text.
fn share(f: &Filler) -> Filler
    ensures { result ≡ f.now }
{
    match f {
        Filler::Nothing => Filler::Nothing,
        Filler::Nil => Filler::Nil,
        Filler::Bool(b) => Filler::Bool(*b),
        Filler::Int(n) => Filler::Int(*n),
        Filler::Str(text) => Filler::Str(text.share()),
        Filler::List(atom) => Filler::List(*atom),
        Filler::Mapping(atom) => Filler::Mapping(*atom),
    }
}

/// The filler of a place: the last one serves all later places.
fn filler_at(fillers: &[Filler], place: usize) -> Filler
    ensures { result ≡ model.filler_at fillers.now place }
{
    if fillers.is_empty() {
        return Filler::Nothing;
    }
    let last = fillers.len() - 1;
    if place <= last {
        return share(&fillers[place]);
    }
    share(&fillers[last])
}

/// There is a filler.
pub fn is_filler(f: &Filler) -> bool
    ensures { result ≡ is_there f.now }
{
    match f {
        Filler::Nothing => false,
        Filler::Nil | Filler::Bool(_) | Filler::Int(_) | Filler::Str(_) => true,
        Filler::List(_) | Filler::Mapping(_) => true,
    }
}

/// There is a filler for each place from one on, up to another.
pub(crate) fn are_there(fillers: &[Filler], first: usize, end: usize) -> bool
    ensures { result ≡ list_all is_there (model.fillers_from fillers.now first (end - first)) }
{
    for place in first..end {
        if !is_filler(&filler_at(fillers, place)) {
            return false;
        }
    }
    true
}

/// The fillers of the places from one on, up to another.
pub fn fillers_from(
    alloc: Global,
    fillers: &[Filler],
    first: usize,
    end: usize,
) -> Result<Vec<Filler>, Memory>
    ensures { IfOk result (λ fs. fs.items ≡ model.fillers_from fillers.now first (end - first)) }
{
    let mut all = Vec::new(alloc);
    for place in first..end {
        all.push(filler_at(fillers, place))?;
    }
    Ok(all)
}

/// A new structure has to be made for it.
fn is_new_structure(f: &Filler) -> bool
    ensures { result ≡ is_new f.now }
{
    match f {
        Filler::Nothing | Filler::Nil => false,
        Filler::Bool(_) | Filler::Int(_) | Filler::Str(_) => false,
        Filler::List(_) | Filler::Mapping(_) => true,
    }
}

/// The filler behind the others, where a new structure has to be made for it.
fn push_if_new(new: &mut Vec<Filler>, f: &Filler) -> Result<(), Memory>
    ensures { OnOk result (new.new.items ≡ new.old.items ++ model.new_ones (f.now ∷ [])) }
{
    if is_new_structure(f) {
        new.push(share(f))?;
    }
    Ok(())
}

/// Those behind the others for which new structures have to be made.
pub fn push_new(new: &mut Vec<Filler>, fillers: &[Filler]) -> Result<(), Memory>
    ensures { OnOk result (new.new.items ≡ new.old.items ++ model.new_ones fillers.now) }
{
    for f in fillers {
        push_if_new(new, f)?;
    }
    Ok(())
}
