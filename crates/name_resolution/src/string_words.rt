//! Whether a descriptor is the word `string`.
ghost use Rattle.std.specs.Prelude.{◌≡◌};
ghost use Rattle.descriptors.specs.Descriptors.{descriptor_of, of_intersection, of_postfix, of_primary};
ghost use Rattle.name_resolution.specs.MainForm.{is_string, is_string_word};

use bal_tree::{BuiltinType, IntersectionType, PostfixType, PrimaryType, TypeTree};

/// Whether the descriptor is `string`, in parentheses or not.
#[cycle(types)]
pub(crate) fn type_is_string(tree: &TypeTree) -> bool
    ensures { result ≡ is_string (descriptor_of tree.now) }
{
    match tree {
        TypeTree::Intersection(t) => intersection_is_string(t),
        TypeTree::Union { .. } => false,
    }
}

#[cycle(types)]
fn intersection_is_string(tree: &IntersectionType) -> bool
    ensures { result ≡ is_string (of_intersection tree.now) }
{
    match tree {
        IntersectionType::Postfix(t) => postfix_is_string(t),
        IntersectionType::Both { .. } => false,
    }
}

#[cycle(types)]
fn postfix_is_string(tree: &PostfixType) -> bool
    ensures { result ≡ is_string (of_postfix tree.now) }
{
    match tree {
        PostfixType::Primary(t) => primary_is_string(t),
        PostfixType::Optional { .. } => false,
        PostfixType::Array { .. } | PostfixType::FixedArray { .. } => false,
    }
}

#[cycle(types)]
fn primary_is_string(tree: &PrimaryType) -> bool
    ensures { result ≡ is_string (of_primary tree.now) }
{
    match tree {
        PrimaryType::Builtin { builtin, .. } => is_word(*builtin),
        PrimaryType::Parens { inner, .. } => type_is_string(inner),
        PrimaryType::Literal(_) | PrimaryType::Negative { .. } | PrimaryType::Name(_) => false,
        PrimaryType::Map { .. } | PrimaryType::Future { .. } => false,
        PrimaryType::Error { detail: None, .. } => false,
        PrimaryType::Error {
            detail: Some(_),
            ..
        } => false,
        PrimaryType::Tuple { .. } | PrimaryType::ClosedRecord { .. } => false,
        PrimaryType::OpenRecord { .. } | PrimaryType::AnyFunction { .. } => false,
        PrimaryType::Function { .. } => false,
    }
}

fn is_word(builtin: BuiltinType) -> bool
    ensures { result ≡ is_string_word builtin }
{
    matches!(builtin, BuiltinType::String)
}
