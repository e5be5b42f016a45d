//! The texts that keys of pairs name, each once.
ghost use Rattle.std.specs.Prelude.{◌≡◌, IfOk, option_copied};
ghost use Rattle.detail_questions.specs.inner.Names.{among, with_found, with_keys, with_text, with_texts};
ghost use Rattle.pair_questions.specs.inner.Strings.{texts_of};

use bal_base::{Memory, Text};
use pair_questions::{Pair, text_of};
use std::alloc::Global;
use type_model::SemType;

/// Whether the text is among these.
fn is_among(texts: &[Text], text: &Text) -> bool
    ensures { result ≡ among texts.now text.now }
{
    texts.iter().any(|t| *t == *text)
}

/// The text behind the others, where it isn't among them.
fn put_text(text: &Text, texts: &mut Vec<Text>) -> Result<(), Memory>
    ensures { IfOk result (λ _. texts.new.items ≡ with_text texts.old.items text.now) }
{
    if is_among(texts.as_slice(), text) {
        return Ok(());
    }
    Ok(texts.push(text.share())?)
}

/// The same of a text that there may be.
fn put_found(text: Option<&Text>, texts: &mut Vec<Text>) -> Result<(), Memory>
    ensures { IfOk result (λ _. texts.new.items ≡ with_found texts.old.items (option_copied text.entry)) }
{
    match text {
        Some(text) => put_text(text, texts),
        None => Ok(()),
    }
}

/// The texts that a type names, behind the others, where they aren't among them.
#[tactic(auto, using(crate::proofs::Named::texts_one_by_one))]
fn put_texts(t: &SemType, texts: &mut Vec<Text>) -> Result<(), Memory>
    ensures { IfOk result (λ _. texts.new.items ≡ with_texts texts.old.items (texts_of t.now)) }
{
    match t {
        SemType::Basic(set) => put_found(text_of(set), texts),
        SemType::Atom(_) => Ok(()),
        SemType::Or(s, t) => {
            put_texts(s, texts)?;
            put_texts(t, texts)
        }
        SemType::And(s, t) => {
            put_texts(s, texts)?;
            put_texts(t, texts)
        }
        SemType::Not(t) => put_texts(t, texts),
    }
}

/// The texts that the keys name, each once.
pub(crate) fn named_texts(alloc: Global, pairs: &[Pair<'_>]) -> Result<Vec<Text>, Memory>
    ensures { IfOk result (λ texts. texts.items ≡ with_keys pairs.now) }
{
    let mut texts = Vec::new(alloc);
    for pair in pairs {
        put_texts(pair.key, &mut texts)?;
    }
    Ok(texts)
}
