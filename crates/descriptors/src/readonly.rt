//! Whether a descriptor is the word `readonly`.
ghost use Rattle.std.specs.Prelude.{◌≡◌};
ghost use Rattle.descriptors.specs.Descriptors.{descriptor_of, is_readonly, is_readonly_word, of_intersection, of_postfix, of_primary};

use bal_tree::{BuiltinType, IntersectionType, PostfixType, PrimaryType, TypeTree};

#[cycle(types)]
fn type_is_readonly(tree: &TypeTree) -> bool
    ensures { result ≡ is_readonly (descriptor_of tree.now) }
{
    match tree {
        TypeTree::Intersection(t) => intersection_is_readonly(t),
        TypeTree::Union { .. } => false,
    }
}

#[cycle(types)]
fn intersection_is_readonly(tree: &IntersectionType) -> bool
    ensures { result ≡ is_readonly (of_intersection tree.now) }
{
    match tree {
        IntersectionType::Postfix(t) => postfix_is_readonly(t),
        IntersectionType::Both { .. } => false,
    }
}

/// Whether the descriptor is `readonly`, in parentheses or not.
#[cycle(types)]
pub(crate) fn postfix_is_readonly(tree: &PostfixType) -> bool
    ensures { result ≡ is_readonly (of_postfix tree.now) }
{
    match tree {
        PostfixType::Primary(t) => primary_is_readonly(t),
        PostfixType::Optional { .. } => false,
        PostfixType::Array { .. } | PostfixType::FixedArray { .. } => false,
    }
}

#[cycle(types)]
fn primary_is_readonly(tree: &PrimaryType) -> bool
    ensures { result ≡ is_readonly (of_primary tree.now) }
{
    match tree {
        PrimaryType::Builtin { builtin, .. } => is_word(*builtin),
        PrimaryType::Parens { inner, .. } => type_is_readonly(inner),
        PrimaryType::Literal(_) | PrimaryType::Negative { .. } | PrimaryType::Name(_) => false,
        PrimaryType::Map { .. } | PrimaryType::Future { .. } => false,
        PrimaryType::Error { detail: None, .. } => false,
        PrimaryType::Error {
            detail: Some(_),
            ..
        } => false,
        PrimaryType::Tuple { .. } | PrimaryType::ClosedRecord { .. } => false,
        PrimaryType::OpenRecord { .. } | PrimaryType::AnyFunction { .. } => false,
        PrimaryType::Function { .. } => false,
    }
}

fn is_word(builtin: BuiltinType) -> bool
    ensures { result ≡ is_readonly_word builtin }
{
    matches!(builtin, BuiltinType::ReadOnly)
}
