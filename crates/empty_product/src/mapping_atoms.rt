//! What mapping atoms say of keys, and which of them are out of play.
ghost use Rattle.std.specs.Prelude.{◌↔◌, ◌≡◌, ◌∷◌, ◌++◌, if◌then◌else◌, ◌<◌, ◌≤◌, All, Any, IfOk, IfSome, IsTrue, OnOk, Option, Some, [], length, map, slice_get};
ghost use Rattle.std.specs.List.{find};
ghost use Rattle.std.specs.Option.{option_copied};
ghost use Rattle.bal_base.specs.Valid.{IsText};
ghost use Rattle.type_model.specs.Defined.{IsDefined, IsEnv};
ghost use Rattle.type_model.specs.Places.{is_same_text};
ghost use Rattle.type_diagrams.specs.Atoms.{parts_of, mapping_parts as parts};
ghost use Rattle.type_diagrams.specs.Conditions.{asks};
ghost use Rattle.type_diagrams.specs.Kinds.{the_mark};
ghost use Rattle.type_diagrams.specs.Members.{IsMappingOutOfPlay, Requires, member_of, type_asked};
ghost use Rattle.type_diagrams.specs.Tables.{IsDiagram};
ghost use Rattle.type_diagrams.specs.Whole.{Extends, Gives};
ghost use Rattle.empty_product.specs.Play.{AreInPlay, IsMappingAtom};
ghost use Rattle.empty_product.specs.Keys.{AreInOrder, HasNamedKeys, HasAdded, IsBehind, Rise};
ghost use Rattle.empty_product.specs.KeyBases.{AreBases, IsApartAt, IsApartBy, fields_of};

use bal_base::{Memory, Text};
use std::alloc::Global;
use type_diagrams::Diagrams;
use type_model::{AtomDef, FieldDef, Ty, TypeEnv};

/// The parts of a mapping atom.
#[derive(Clone, Copy)]
pub(crate) struct MappingParts<'a> {
    pub(crate) fields: &'a [FieldDef],
    pub(crate) rest: Option<&'a Ty>,
}

pub(crate) fn mapping_parts(defs: &[AtomDef], atom: u32) -> MappingParts<'_>
    requires { IsMappingAtom defs.now atom }
    ensures { parts_of parts defs.now atom ≡ Some (result.fields.now, option_copied result.rest) }
{
    match &defs[atom as usize] {
        AtomDef::Mapping { fields, rest } => MappingParts {
            fields: fields.as_slice(),
            rest: rest.as_ref(),
        },
        AtomDef::List { .. } | AtomDef::Arrow { .. } => unreachable!(),
        AtomDef::Error { .. } | AtomDef::Future { .. } => unreachable!(),
    }
}

/// The field of this name.
fn field<'a>(fields: &'a [FieldDef], key: &Text) -> Option<&'a FieldDef>
    ensures { option_copied result ≡ find (λ f. is_same_text f.name key.now) fields.now }
{
    fields.iter().find(|field| field.name == *key)
}

/// The type of the mapping atom's members at the key: that of its field, or the rest's.
fn key_ty<'a>(defs: &'a [AtomDef], atom: u32, key: &Text) -> Option<&'a Ty>
    requires atom { IsMappingAtom defs.now atom }
    requires env { IsEnv defs.now }
    ensures asked { type_asked defs.now (option_copied result) ≡ member_of defs.now key.now atom }
    ensures defined { IfSome (option_copied result) (λ t. IsDefined defs.now t.sem) }
{
    let parts = mapping_parts(defs, atom);
    match field(parts.fields, key) {
        Some(field) => Some(&field.ty),
        None => parts.rest,
    }
}

/// Whether the mapping atom doesn't allow the key to be absent.
pub(crate) fn is_required(defs: &[AtomDef], atom: u32, key: &Text) -> bool
    requires atom { IsMappingAtom defs.now atom }
    requires env { IsEnv defs.now }
    ensures { IsTrue result ↔ Requires defs.now key.now atom }
{
    match field(mapping_parts(defs, atom).fields, key) {
        Some(field) => !field.optional,
        None => false,
    }
}

/// Whether one of these mapping atoms requires the key.
pub(crate) fn any_requires(defs: &[AtomDef], atoms: &[u32], key: &Text) -> bool
    requires atoms { All (IsMappingAtom defs.now) atoms.now }
    requires env { IsEnv defs.now }
    ensures { IsTrue result ↔ Any (Requires defs.now key.now) atoms.now }
{
    for atom in atoms {
        if is_required(defs, *atom, key) {
            return true;
        }
    }
    false
}

/// What the mapping atom asks at a key.
pub(crate) fn member_question(
    env: &TypeEnv,
    dia: &mut Diagrams,
    atom: u32,
    key: &Text,
) -> Result<u32, Memory>
    requires atom { IsMappingAtom env.now atom }
    ensures extends { Extends (length env.now) dia.old dia.new }
    ensures made { IfOk result (Gives dia.new (member_of env.now key.now atom)) }
{
    match key_ty(env.defs(), atom, key) {
        Some(ty) => dia.of(env, &ty.sem),
        None => dia.nothing(),
    }
}

/// What all these mapping atoms ask at a key.
pub(crate) fn members_question(
    env: &TypeEnv,
    dia: &mut Diagrams,
    atoms: &[u32],
    key: &Text,
) -> Result<u32, Memory>
    requires atoms { All (IsMappingAtom env.now) atoms.now }
    ensures extends { Extends (length env.now) dia.old dia.new }
    ensures made { IfOk result (Gives dia.new (asks (map (member_of env.now key.now) atoms.now) [])) }
{
    let mut question = dia.every()?;
    for atom in atoms {
        let asked = member_question(env, dia, *atom, key)?;
        question = dia.inter(question, asked)?;
    }
    Ok(question)
}

/// The keys that these mapping atoms name, rising.
pub(crate) fn named_keys(
    alloc: Global,
    defs: &[AtomDef],
    atoms: &[u32],
) -> Result<Vec<Text>, Memory>
    requires { All (IsMappingAtom defs.now) atoms.now }
    ensures { IfOk result (λ keys. HasNamedKeys defs.now atoms.now keys.items) }
{
    let mut keys = Vec::new(alloc);
    for atom in atoms {
        add_keys(&mut keys, mapping_parts(defs, *atom).fields)?;
    }
    Ok(keys)
}

/// Puts the names of the fields among the keys.
fn add_keys(keys: &mut Vec<Text>, fields: &[FieldDef]) -> Result<(), Memory>
    requires { AreInOrder keys.old.items }
    ensures ordered { OnOk result (AreInOrder keys.new.items) }
    ensures added { OnOk result (HasAdded (λ key. Any (λ f. f.name ≡ key) fields.now) keys.old.items keys.new.items) }
{
    for field in fields {
        add_key(keys, &field.name)?;
    }
    Ok(())
}

/// Puts the key at its place, unless it is there, and gives the place.
pub(crate) fn add_key(keys: &mut Vec<Text>, key: &Text) -> Result<usize, Memory>
    requires { AreInOrder keys.old.items }
    ensures ordered { OnOk result (AreInOrder keys.new.items) }
    ensures added { OnOk result (HasAdded (λ k. k ≡ key.now) keys.old.items keys.new.items) }
    ensures place { IfOk result (λ place. slice_get keys.new.items place ≡ Some key.now) }
{
    let _scalars = key.as_str();
    match keys.as_slice().binary_search(key) {
        Ok(place) => Ok(place),
        Err(place) => {
            keys.insert(place, key.share())?;
            Ok(place)
        }
    }
}

/// A key that comes behind all of these rising ones.
pub(crate) fn key_behind(alloc: Global, keys: &[Text]) -> Result<Text, Memory>
    requires { Rise keys.now }
    ensures { IfOk result (IsBehind keys.now) }
{
    match keys.last() {
        Some(last) => longer(alloc, last),
        None => Text::new(alloc, "a"),
    }
}

/// The text with an `a` behind it.
fn longer(alloc: Global, text: &Text) -> Result<Text, Memory>
    ensures more { IfOk result (λ longer. longer ≡ text.now ++ 97 ∷ []) }
    ensures text { IfOk result IsText }
{
    let mut letters = String::new(alloc);
    letters.push_str(text.as_str())?;
    letters.push('a')?;
    Text::from_string(alloc, letters)
}

/// What wanted mapping atoms ask together at a key that one of them requires, or that none of them does.
#[derive(Drop)]
struct KeyBase {
    key: Text,
    question: u32,
    required: bool,
}

/// The unwanted mapping atoms that are in play: those that are plainly apart from the wanted ones at no key
/// that one of all these requires.
pub(crate) fn mappings_in_play(
    alloc: Global,
    env: &TypeEnv,
    dia: &mut Diagrams,
    wanted: &[u32],
    unwanted: &[u32],
) -> Result<Vec<u32>, Memory>
    requires wanted { All (IsMappingAtom env.now) wanted.now }
    requires unwanted { All (IsMappingAtom env.now) unwanted.now }
    ensures extends { Extends (length env.now) dia.old dia.new }
    ensures few { OnOk result (length env.now ≤ the_mark) }
    ensures playing { IfOk result (λ playing. AreInPlay (IsMappingOutOfPlay env.now wanted.now) unwanted.now playing.items) }
{
    let found = key_bases(alloc, env, dia, wanted)?;
    let bases = found.as_slice();
    let mut playing = Vec::new(alloc);
    for atom in unwanted {
        let out = is_out_of_play(env, dia, bases, wanted, *atom)?;
        add_unless(&mut playing, out, *atom)?;
    }
    Ok(playing)
}

/// Puts the atom behind the others, unless it is out of play.
fn add_unless(playing: &mut Vec<u32>, out: bool, atom: u32) -> Result<(), Memory>
    ensures { OnOk result (playing.new.items ≡ (if out then playing.old.items else (playing.old.items ++ atom ∷ []))) }
{
    if out {
        return Ok(());
    }
    playing.push(atom)?;
    Ok(())
}

/// What the wanted mapping atoms ask at each key that one of them names.
fn key_bases(
    alloc: Global,
    env: &TypeEnv,
    dia: &mut Diagrams,
    wanted: &[u32],
) -> Result<Vec<KeyBase>, Memory>
    requires wanted { All (IsMappingAtom env.now) wanted.now }
    ensures extends { Extends (length env.now) dia.old dia.new }
    ensures few { OnOk result (length env.now ≤ the_mark) }
    ensures bases { IfOk result (λ bases. AreBases env.now dia.new wanted.now bases.items) }
{
    let defs = env.defs();
    let named = named_keys(alloc, defs, wanted)?;
    let keys = named.as_slice();
    let mut bases = Vec::new(alloc);
    for key in keys {
        let question = members_question(env, dia, wanted, key)?;
        let required = any_requires(defs, wanted, key);
        bases.push(KeyBase {
            key: key.share(),
            question,
            required,
        })?;
    }
    Ok(bases)
}

/// Whether the atom has no shape in common with the wanted ones at a key that one of all these requires.
fn is_out_of_play(
    env: &TypeEnv,
    dia: &mut Diagrams,
    bases: &[KeyBase],
    wanted: &[u32],
    atom: u32,
) -> Result<bool, Memory>
    requires wanted { All (IsMappingAtom env.now) wanted.now }
    requires atom { IsMappingAtom env.now atom }
    requires bases { AreBases env.now dia.old wanted.now bases.now }
    ensures extends { Extends (length env.now) dia.old dia.new }
    ensures out { IfOk result (λ out. IsTrue out ↔ IsMappingOutOfPlay env.now wanted.now atom) }
{
    if is_apart_at_named(env, dia, bases, atom)? {
        return Ok(true);
    }
    is_apart_at_own(env, dia, wanted, atom)
}

/// Whether the atom has no shape in common with the wanted ones at a key that one of them requires.
fn is_apart_at_named(
    env: &TypeEnv,
    dia: &mut Diagrams,
    bases: &[KeyBase],
    atom: u32,
) -> Result<bool, Memory>
    requires atom { IsMappingAtom env.now atom }
    requires bases { All (λ b. IsDiagram dia.old b.question) bases.now }
    ensures extends { Extends (length env.now) dia.old dia.new }
    ensures apart { IfOk result (λ apart. IsTrue apart ↔ Any (IsApartAt env.now dia.old atom) bases.now) }
{
    for base in bases {
        if is_apart_at(env, dia, base, atom)? {
            return Ok(true);
        }
    }
    Ok(false)
}

/// Whether the atom has no shape in common with the wanted ones at a key, where one of these requires it.
fn is_apart_at(env: &TypeEnv, dia: &mut Diagrams, base: &KeyBase, atom: u32) -> Result<bool, Memory>
    requires atom { IsMappingAtom env.now atom }
    requires base { IsDiagram dia.old base.now.question }
    ensures extends { Extends (length env.now) dia.old dia.new }
    ensures apart { IfOk result (λ apart. IsTrue apart ↔ IsApartAt env.now dia.old atom base.now) }
{
    if !base.required {
        return Ok(false);
    }
    let asked = member_question(env, dia, atom, &base.key)?;
    let common = dia.inter(asked, base.question)?;
    Ok(dia.is_nothing(common))
}

/// Whether the atom has no shape in common with the wanted ones at a key that it requires.
fn is_apart_at_own(
    env: &TypeEnv,
    dia: &mut Diagrams,
    wanted: &[u32],
    atom: u32,
) -> Result<bool, Memory>
    requires wanted { All (IsMappingAtom env.now) wanted.now }
    requires atom { IsMappingAtom env.now atom }
    ensures extends { Extends (length env.now) dia.old dia.new }
    ensures apart { IfOk result (λ apart. IsTrue apart ↔ Any (IsApartBy env.now wanted.now atom) (fields_of env.now atom)) }
{
    let fields = mapping_parts(env.defs(), atom).fields;
    for field in fields {
        if is_apart_by(env, dia, wanted, atom, field)? {
            return Ok(true);
        }
    }
    Ok(false)
}

/// Whether the atom has no shape in common with the wanted ones at the key of a field, where it requires it.
fn is_apart_by(
    env: &TypeEnv,
    dia: &mut Diagrams,
    wanted: &[u32],
    atom: u32,
    field: &FieldDef,
) -> Result<bool, Memory>
    requires wanted { All (IsMappingAtom env.now) wanted.now }
    requires atom { IsMappingAtom env.now atom }
    ensures extends { Extends (length env.now) dia.old dia.new }
    ensures apart { IfOk result (λ apart. IsTrue apart ↔ IsApartBy env.now wanted.now atom field.now) }
{
    if field.optional {
        return Ok(false);
    }
    let question = members_question(env, dia, wanted, &field.name)?;
    let asked = member_question(env, dia, atom, &field.name)?;
    let common = dia.inter(asked, question)?;
    Ok(dia.is_nothing(common))
}
