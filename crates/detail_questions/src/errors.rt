//! Needs of errors with details of pairs.
ghost use Rattle.std.specs.Prelude.{◌≡◌, ◌⊎◌, ◌+◌, ◌<◌, ◌≤◌, ◌^◌, ◌++◌, All, IfOk, false, filter, length, true};
ghost use Rattle.std.specs.List.{AllZip};
ghost use Rattle.bal_base.specs.Stops.{IfFault};
ghost use Rattle.type_model.specs.declared.basic.SemType.{Atom};
ghost use Rattle.type_model.specs.Calls.{KeepsTypes};
ghost use Rattle.type_model.specs.Defined.{IsDefined, IsDefinedGroup};
ghost use Rattle.type_model.specs.Places.{HasDistinctFields};
ghost use Rattle.code_needs.specs.Needs.{HasErrorsOf};
ghost use Rattle.code_verifier.specs.Asked.{Answers};
ghost use Rattle.code_verifier.specs.KindSets.{IsBoth};
ghost use Rattle.pair_questions.specs.Pairs.{pairs_of};
ghost use Rattle.detail_questions.specs.Details.{ErrorStops, HasErrorsMore, PairDefined, count_open, is_open as open_key};
ghost use Rattle.detail_questions.specs.inner.Group.{GroupStops, HasLack, IsAnsweredOver, IsDetailType, IsGroup, IsLack, IsNotAtom};

use crate::cells::{Cells, only_text};
use crate::names::named_texts;
use crate::tables::table;
use atom_questions::{QuestionLimit, add_defs, below};
use bal_base::{MOST_ATOMS, Memory, Stop, Text};
use pair_questions::Pair;
use std::alloc::Global;
use type_model::{Answer, AtomDef, SemType, Types};

// ---- which atoms

/// Whether the key isn't written as a single string.
fn is_open(key: &SemType) -> bool
    ensures { result ≡ open_key key.now }
{
    match only_text(key) {
        Some(_) => false,
        None => true,
    }
}

/// How many keys aren't.
fn open_keys(pairs: &[Pair<'_>]) -> usize
    ensures { result ≡ count_open pairs.now }
{
    pairs.iter().filter(|pair| is_open(pair.key)).count()
}

/// The mappings that have none of a pair's keys, behind the others, where its key isn't written as a single string.
fn put_lack(
    alloc: Global,
    names: &[Text],
    key: &SemType,
    defs: &mut Vec<AtomDef>,
) -> Result<(), Memory>
    ensures { IfOk result (λ _. HasLack names.now key.now defs.old.items defs.new.items) }
{
    if !is_open(key) {
        return Ok(());
    }
    Ok(defs.push(table(alloc, names, Cells::Without(key))?)?)
}

/// Those of all pairs.
fn lacks(alloc: Global, names: &[Text], pairs: &[Pair<'_>]) -> Result<Vec<AtomDef>, Memory>
    ensures { IfOk result (λ defs. AllZip (IsLack names.now) (filter (λ p. open_key p.key.now) pairs.now) defs.items) }
{
    let mut defs = Vec::new(alloc);
    for pair in pairs {
        put_lack(alloc, names, pair.key, &mut defs)?;
    }
    Ok(defs)
}

/// What isn't in the atom.
fn no_atom(alloc: Global, atom: u32) -> Result<SemType, Memory>
    ensures { IfOk result (IsNotAtom atom) }
{
    Ok(SemType::Not(Box::new(alloc, SemType::Atom(atom))?))
}

/// What of the type isn't in the atom.
fn without_atom(alloc: Global, t: SemType, atom: u32) -> Result<SemType, Memory>
    ensures { IfOk result (IsBoth (λ s. s ≡ t) (IsNotAtom atom)) }
{
    let t = Box::new(alloc, t)?;
    let other = Box::new(alloc, no_atom(alloc, atom)?)?;
    Ok(SemType::And(t, other))
}

/// What is in the first atom, and in none of so many behind it.
fn detail_type(alloc: Global, first: u32, count: u32) -> Result<SemType, Memory>
    requires { first + count < 2 ^ 32 }
    ensures { IfOk result (IsDetailType first count) }
{
    let mut t = SemType::Atom(first);
    for n in 0..count {
        t = without_atom(alloc, t, first + n + 1)?;
    }
    Ok(t)
}

/// The definitions of details, of mappings that lack keys, and of errors, in this order, the first of which is to have the number.
fn group(alloc: Global, pairs: &[Pair<'_>], first: u32) -> Result<Vec<AtomDef>, Memory>
    requires { first + count_open pairs.now < 2 ^ 32 }
    ensures { IfOk result (λ defs. IsGroup first pairs.now defs.items) }
{
    let names = named_texts(alloc, pairs)?;
    let mut lacking = lacks(alloc, names.as_slice(), pairs)?;
    let detail = detail_type(alloc, first, lacking.len() as u32)?;
    let mut defs = Vec::new(alloc);
    defs.push(table(alloc, names.as_slice(), Cells::Values(pairs))?)?;
    defs.append(&mut lacking)?;
    defs.push(AtomDef::Error { detail })?;
    Ok(defs)
}

// ---- the question

/// Whether there is room for the atoms of errors with so many open keys.
fn is_room(first: usize, keys: usize) -> bool
    requires { first ≤ MOST_ATOMS }
    ensures room { result ≡ true → first + (keys + 2) ≤ MOST_ATOMS }
    ensures none { result ≡ false → MOST_ATOMS < first + (keys + 2) }
{
    let room = MOST_ATOMS - first;
    2 <= room && keys <= room - 2
}

/// Whether the last one of these atoms, which are added, is below the type.
fn with_group<T: Types>(
    alloc: Global,
    types: &mut T,
    defs: Vec<AtomDef>,
    last: u32,
    r: &SemType,
) -> Result<Answer, Stop<QuestionLimit>>
    requires named { IsDefinedGroup (T.atoms types.old) defs.items }
    requires distinct { All HasDistinctFields defs.items }
    requires last { last < length (T.atoms types.old) + length defs.items }
    requires right { IsDefined (T.atoms types.old) r.now }
    ensures kept { KeepsTypes (T.atoms types.old) (T.atoms types.new) }
    ensures added { (T.atoms types.new ≡ T.atoms types.old) ⊎ (T.atoms types.new ≡ T.atoms types.old ++ defs.items) }
    ensures answer { IfOk result (IsAnsweredOver (T.atoms types.old) defs.items last r.now) }
    ensures limit { IfFault result (GroupStops T.passes (T.atoms types.old) defs.items last r.now) }
{
    match add_defs(alloc, types, defs) {
        Ok(_) => below(alloc, types, &SemType::Atom(last), r),
        Err(stop) => Err(stop),
    }
}

/// Whether errors with details of the pairs are in a type, which costs a question, and two atoms and one more for each pair whose
/// key isn't written as a single string. `Atoms` where there would be too many atoms, `Types` where the question is too large.
pub fn has_errors<T: Types>(
    alloc: Global,
    types: &mut T,
    r: &SemType,
    pairs: &[Pair<'_>],
) -> Result<Answer, Stop<QuestionLimit>>
    requires right { IsDefined (T.atoms types.old) r.now }
    requires pairs { All (PairDefined (T.atoms types.old)) pairs.now }
    ensures kept { KeepsTypes (T.atoms types.old) (T.atoms types.new) }
    ensures added { HasErrorsMore (T.atoms types.old) pairs.now (T.atoms types.new) }
    ensures answers { IfOk result (Answers (T.atoms types.old) (HasErrorsOf r.now (pairs_of pairs.now))) }
    ensures limit { IfFault result (ErrorStops T.passes (T.atoms types.old) pairs.now r.now) }
{
    let first = types.env().defs().len();
    let keys = open_keys(pairs);
    if !is_room(first, keys) {
        return Err(Stop::Fault(QuestionLimit::Atoms));
    }
    match group(alloc, pairs, first as u32) {
        Ok(defs) => with_group(alloc, types, defs, (first + (keys + 1)) as u32, r),
        Err(Memory) => Err(Stop::Memory),
    }
}
