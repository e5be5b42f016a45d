//! Which strings a type has. No atom has any, and texts that a type doesn't name are all alike in it.
ghost use Rattle.std.specs.Prelude.{◌≡◌, ◌↔◌, Any, IsTrue, List, option_copied, option_to_list};
ghost use Rattle.bal_base.specs.Valid.{IsText};
ghost use Rattle.type_model.specs.declared.atoms.AtomDef.{AtomDef as Definition};
ghost use Rattle.pair_questions.specs.Fitting.{HasBeside};
ghost use Rattle.pair_questions.specs.inner.Strings.{IsTextBeside, is_beside as beside, is_named as named, is_that as that, set_has as has_by, text_of_set, texts_of, type_has as has_string};

use bal_base::Text;
use type_model::{BasicSet, FieldDef, SemType};

/// Whether it is this text; nothing is another one.
fn is_that(own: &Text, text: Option<&Text>) -> bool
    ensures { result ≡ that own.now (option_copied text.entry) }
{
    match text {
        Some(text) => *own == *text,
        None => false,
    }
}

/// Whether the string is in the set; nothing stands for a string that the set doesn't name.
fn set_has(set: &BasicSet, text: Option<&Text>) -> bool
    ensures { result ≡ has_by set.now (option_copied text.entry) }
{
    match set {
        BasicSet::StringOne(own) => is_that(own, text),
        BasicSet::StringAll => true,
        BasicSet::Readonly => true,
        BasicSet::Nil => false,
        BasicSet::Bool(_) => false,
        BasicSet::IntRange(_, _) => false,
        BasicSet::ListAll => false,
        BasicSet::MappingAll => false,
        BasicSet::ErrorAll => false,
        BasicSet::FunctionAll => false,
        BasicSet::FutureAll => false,
        BasicSet::Never => false,
    }
}

/// Whether the string is in the type, over any atoms; nothing stands for a string that the type doesn't name. It walks over the
/// type once.
pub fn type_has(t: &SemType, text: Option<&Text>) -> bool
    ensures { result ≡ has_string t.now (option_copied text.entry) }
{
    match t {
        SemType::Basic(set) => set_has(set, text),
        SemType::Atom(_) => false,
        SemType::Or(s, t) => type_has(s, text) || type_has(t, text),
        SemType::And(s, t) => type_has(s, text) && type_has(t, text),
        SemType::Not(t) => !type_has(t, text),
    }
}

/// Whether a field has the name.
fn is_named(fields: &[FieldDef], name: &Text) -> bool
    ensures { result ≡ named fields.now name.now }
{
    fields.iter().any(|f| f.name == *name)
}

/// Whether the type has the string, and no field has it as its name.
fn is_beside(text: &Text, key: &SemType, fields: &[FieldDef]) -> bool
    ensures value { result ≡ beside key.now fields.now text.now }
    ensures text { IsText text.now }
{
    let _characters = text.as_str();
    type_has(key, Some(text)) && !is_named(fields, text)
}

/// The text that a set names.
pub fn text_of(set: &BasicSet) -> Option<&Text>
    ensures { option_copied result ≡ text_of_set set.now }
{
    match set {
        BasicSet::StringOne(own) => Some(own),
        BasicSet::StringAll => None,
        BasicSet::Readonly => None,
        BasicSet::Nil => None,
        BasicSet::Bool(_) => None,
        BasicSet::IntRange(_, _) => None,
        BasicSet::ListAll => None,
        BasicSet::MappingAll => None,
        BasicSet::ErrorAll => None,
        BasicSet::FunctionAll => None,
        BasicSet::FutureAll => None,
        BasicSet::Never => None,
    }
}

/// Whether the text is there, the type has it, and no field has it as its name.
fn some_beside(text: Option<&Text>, key: &SemType, fields: &[FieldDef]) -> bool
    ensures { IsTrue result ↔ Any (IsTextBeside key.now fields.now) (option_to_list (option_copied text.entry)) }
{
    match text {
        Some(text) => is_beside(text, key, fields),
        None => false,
    }
}

/// Whether one of the texts that a part of a type names is in the type and is no name of a field.
fn names_beside(part: &SemType, key: &SemType, fields: &[FieldDef]) -> bool
    ensures { IsTrue result ↔ Any (IsTextBeside key.now fields.now) (texts_of part.now) }
{
    match part {
        SemType::Basic(set) => some_beside(text_of(set), key, fields),
        SemType::Atom(_) => false,
        SemType::Or(s, t) => names_beside(s, key, fields) || names_beside(t, key, fields),
        SemType::And(s, t) => names_beside(s, key, fields) || names_beside(t, key, fields),
        SemType::Not(t) => names_beside(t, key, fields),
    }
}

/// Whether the type has a string that is no name of a field. For each text that the type names it walks over the type and the
/// fields.
pub(crate) fn has_beside(key: &SemType, fields: &[FieldDef]) -> bool
    ensures { (env : List Definition) → IsTrue result ↔ HasBeside env key.now fields.now }
{
    type_has(key, None) || names_beside(key, key, fields)
}
