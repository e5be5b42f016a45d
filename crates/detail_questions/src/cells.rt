//! Which types stand at the keys of details, and of mappings that have none of a pair's keys.
ghost use Rattle.std.specs.Prelude.{◌≡◌, IfOk, ⊤, option_copied};
ghost use Rattle.type_model.specs.SameType.{IsSameType};
ghost use Rattle.type_model.specs.declared.basic.BasicSet.TheVariants.{Never};
ghost use Rattle.code_verifier.specs.KindSets.{IsAllBut, IsEither};
ghost use Rattle.detail_questions.specs.inner.Cells.{CellsBelow, IsCell, IsLackingAt, IsPlain, IsTyBy, IsTypeBy, IsValueAt, IsWithValue, ValuesBelow, is_only as only, is_required as required, lacks_at, only_text as only_text_of};

use bal_base::{Memory, Text};
use pair_questions::{Pair, text_of, type_has};
use std::alloc::Global;
use type_model::{BasicSet, ChoiceList, SemType, Ty};

/// What a mapping may have at its keys.
#[derive(Clone, Copy)]
pub(crate) enum Cells<'c> {
    /// Values of the pairs whose key has the string.
    Values(&'c [Pair<'c>]),
    /// Nothing where the type has the string, and anything else.
    Without(&'c SemType),
}

// ---- types

/// The shapes of either type.
fn either(alloc: Global, s: SemType, t: &SemType) -> Result<SemType, Memory>
    ensures { IfOk result (IsEither (λ u. u ≡ s) (IsSameType t.now)) }
{
    let s = Box::new(alloc, s)?;
    let t = Box::new(alloc, t.copy(alloc)?)?;
    Ok(SemType::Or(s, t))
}

/// The type, with the pair's value where its key has the string.
fn with_value(
    alloc: Global,
    values: SemType,
    pair: &Pair<'_>,
    text: Option<&Text>,
) -> Result<SemType, Memory>
    ensures { IfOk result (IsWithValue pair.now (option_copied text.entry) values) }
{
    match type_has(pair.key, text) {
        true => either(alloc, values, pair.value),
        false => Ok(values),
    }
}

/// What the pairs whose key has the string have as values.
fn values_at(alloc: Global, pairs: &[Pair<'_>], text: Option<&Text>) -> Result<SemType, Memory>
    ensures { IfOk result (IsTypeBy (λ env. IsValueAt pairs.now env (option_copied text.entry)) (ValuesBelow pairs.now)) }
{
    let mut values = SemType::Basic(BasicSet::Never);
    for pair in pairs {
        values = with_value(alloc, values, pair, text)?;
    }
    Ok(values)
}

/// All shapes.
fn anything(alloc: Global) -> Result<SemType, Memory>
    ensures { IfOk result (IsAllBut Never) }
{
    Ok(SemType::Not(Box::new(alloc, SemType::Basic(BasicSet::Never))?))
}

/// Nothing where the type has the string, and anything else.
fn without(alloc: Global, key: &SemType, text: Option<&Text>) -> Result<SemType, Memory>
    ensures { IfOk result (IsTypeBy (λ env. IsLackingAt key.now env (option_copied text.entry)) (λ n. ⊤)) }
{
    match type_has(key, text) {
        true => Ok(SemType::Basic(BasicSet::Never)),
        false => anything(alloc),
    }
}

/// The type at a key.
fn cell(alloc: Global, cells: Cells<'_>, text: Option<&Text>) -> Result<SemType, Memory>
    ensures { IfOk result (IsTypeBy (λ env. IsCell cells.entry env (option_copied text.entry)) (CellsBelow cells.entry)) }
{
    match cells {
        Cells::Values(pairs) => values_at(alloc, pairs, text),
        Cells::Without(key) => without(alloc, key, text),
    }
}

/// The type without constructor choices.
fn plain(alloc: Global, sem: SemType) -> Ty
    ensures { IsPlain sem result }
{
    Ty {
        sem,
        lists: ChoiceList::of(Vec::new(alloc)),
        maps: ChoiceList::of(Vec::new(alloc)),
    }
}

/// The type at a key; nothing stands for keys that aren't named.
pub(crate) fn cell_type(alloc: Global, cells: Cells<'_>, text: Option<&Text>) -> Result<Ty, Memory>
    ensures { IfOk result (IsTyBy (λ env. IsCell cells.entry env (option_copied text.entry)) (CellsBelow cells.entry)) }
{
    match cell(alloc, cells, text) {
        Ok(sem) => Ok(plain(alloc, sem)),
        Err(Memory) => Err(Memory),
    }
}

// ---- which keys have to be there

/// The string, where the type is written as a single one.
pub(crate) fn only_text(key: &SemType) -> Option<&Text>
    ensures { option_copied result ≡ only_text_of key.now }
{
    match key {
        SemType::Basic(set) => text_of(set),
        SemType::Atom(_) => None,
        SemType::Or(_, _) => None,
        SemType::And(_, _) => None,
        SemType::Not(_) => None,
    }
}

/// Whether the type is written as this string alone.
fn is_only(key: &SemType, name: &Text) -> bool
    ensures { result ≡ only key.now name.now }
{
    match only_text(key) {
        Some(own) => *own == *name,
        None => false,
    }
}

/// Whether some pair's key is written as this string alone.
fn is_required(pairs: &[Pair<'_>], name: &Text) -> bool
    ensures { result ≡ required pairs.now name.now }
{
    pairs.iter().any(|pair| is_only(pair.key, name))
}

/// Whether a mapping may lack the key.
pub(crate) fn may_lack(cells: Cells<'_>, name: &Text) -> bool
    ensures { result ≡ lacks_at cells.entry name.now }
{
    match cells {
        Cells::Values(pairs) => !is_required(pairs, name),
        Cells::Without(_) => true,
    }
}
