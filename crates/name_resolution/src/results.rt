//! Whether a result can't be an error or nil alone, whatever its names stand for.
ghost use Rattle.std.specs.Prelude.{◌≡◌};
ghost use Rattle.descriptors.specs.Descriptors.{descriptor_if, descriptor_of, of_intersection, of_postfix, of_primary};
ghost use Rattle.name_resolution.specs.MainForm.{gives_more as gives_more_of, gives_more_if as gives_more_if_of, is_never_word, is_nil_literal};

use bal_tree::{BuiltinType, IntersectionType, Literal, PostfixType, PrimaryType, TypeTree};

/// The same of a result that may be absent.
pub(crate) fn gives_more_if(given: &Option<Box<TypeTree>>) -> bool
    ensures { result ≡ gives_more_if_of (descriptor_if given.now) }
{
    match given {
        None => false,
        Some(tree) => gives_more(tree),
    }
}

/// Whether the type of the descriptor has a shape that is neither an error nor nil, whatever its names stand for, as far as words,
/// literals, arrays, maps and their unions tell it.
#[cycle(types)]
fn gives_more(tree: &TypeTree) -> bool
    ensures { result ≡ gives_more_of (descriptor_of tree.now) }
{
    match tree {
        TypeTree::Intersection(t) => intersection_gives_more(t),
        TypeTree::Union { left, right, .. } => gives_more(left) || intersection_gives_more(right),
    }
}

#[cycle(types)]
fn intersection_gives_more(tree: &IntersectionType) -> bool
    ensures { result ≡ gives_more_of (of_intersection tree.now) }
{
    match tree {
        IntersectionType::Postfix(t) => postfix_gives_more(t),
        IntersectionType::Both { .. } => false,
    }
}

#[cycle(types)]
fn postfix_gives_more(tree: &PostfixType) -> bool
    ensures { result ≡ gives_more_of (of_postfix tree.now) }
{
    match tree {
        PostfixType::Primary(t) => primary_gives_more(t),
        PostfixType::Optional { of, .. } => postfix_gives_more(of),
        PostfixType::Array { .. } => true,
        PostfixType::FixedArray { .. } => false,
    }
}

#[cycle(types)]
fn primary_gives_more(tree: &PrimaryType) -> bool
    ensures { result ≡ gives_more_of (of_primary tree.now) }
{
    match tree {
        PrimaryType::Builtin { builtin, .. } => !is_never(*builtin),
        PrimaryType::Parens { inner, .. } => gives_more(inner),
        PrimaryType::Literal(l) => !is_nil(l),
        PrimaryType::Negative { .. } | PrimaryType::Map { .. } => true,
        PrimaryType::Name(_) | PrimaryType::Future { .. } => false,
        PrimaryType::Error { detail: None, .. } => false,
        PrimaryType::Error {
            detail: Some(_),
            ..
        } => false,
        PrimaryType::Tuple { .. } | PrimaryType::ClosedRecord { .. } => false,
        PrimaryType::OpenRecord { .. } | PrimaryType::AnyFunction { .. } => false,
        PrimaryType::Function { .. } => false,
    }
}

fn is_never(builtin: BuiltinType) -> bool
    ensures { result ≡ is_never_word builtin }
{
    matches!(builtin, BuiltinType::Never)
}

fn is_nil(literal: &Literal) -> bool
    ensures { result ≡ is_nil_literal literal.now }
{
    matches!(literal, Literal::Nil { .. })
}
