//! How type descriptors end, as far as that decides what may stand behind them.
#![tactic(auto, using(crate::proofs::TypeLayers::type_layers))]

ghost use Rattle.std.specs.Prelude.{◌≡◌};
ghost use Rattle.bal_tree.specs.TypeRules.{type_end, intersection_end, postfix_type_end, primary_type_end};

use crate::types::{BuiltinType, IntersectionType, PostfixType, PrimaryType, TypeTree};

impl TypeTree {
    /// Whether the type ends in the result of a function type.
    pub fn ends_in_result(&self) -> bool
        ensures { result ≡ (type_end self.now).in_result }
    {
        match self {
            TypeTree::Intersection(t) => t.ends_in_result(),
            TypeTree::Union { right, .. } => right.ends_in_result(),
        }
    }

    /// Whether the last token of the type is the keyword `int`.
    #[cycle(ends)]
    pub fn ends_in_int(&self) -> bool
        ensures { result ≡ (type_end self.now).in_int }
    {
        match self {
            TypeTree::Intersection(t) => t.ends_in_int(),
            TypeTree::Union { right, .. } => right.ends_in_int(),
        }
    }
}

impl IntersectionType {
    /// Whether the type ends in the result of a function type.
    pub fn ends_in_result(&self) -> bool
        ensures { result ≡ (intersection_end self.now).in_result }
    {
        match self {
            IntersectionType::Postfix(t) => t.ends_in_result(),
            IntersectionType::Both { right, .. } => right.ends_in_result(),
        }
    }

    /// Whether the last token of the type is the keyword `int`.
    #[cycle(ends)]
    pub fn ends_in_int(&self) -> bool
        ensures { result ≡ (intersection_end self.now).in_int }
    {
        match self {
            IntersectionType::Postfix(t) => t.ends_in_int(),
            IntersectionType::Both { right, .. } => right.ends_in_int(),
        }
    }
}

impl PostfixType {
    /// Whether the type ends in the result of a function type.
    pub fn ends_in_result(&self) -> bool
        ensures { result ≡ (postfix_type_end self.now).in_result }
    {
        match self {
            PostfixType::Primary(t) => t.ends_in_result(),
            PostfixType::Optional { .. }
            | PostfixType::Array { .. }
            | PostfixType::FixedArray { .. } => false,
        }
    }

    /// Whether the last token of the type is the keyword `int`.
    #[cycle(ends)]
    pub fn ends_in_int(&self) -> bool
        ensures { result ≡ (postfix_type_end self.now).in_int }
    {
        match self {
            PostfixType::Primary(t) => t.ends_in_int(),
            PostfixType::Optional { .. }
            | PostfixType::Array { .. }
            | PostfixType::FixedArray { .. } => false,
        }
    }
}

impl PrimaryType {
    /// Whether the type is a function type with a result.
    pub fn ends_in_result(&self) -> bool
        ensures { result ≡ (primary_type_end self.now).in_result }
    {
        match self {
            PrimaryType::Function { result, .. } => result.is_some(),
            PrimaryType::Builtin { .. } | PrimaryType::Literal(_) => false,
            PrimaryType::Negative { .. } | PrimaryType::Parens { .. } => false,
            PrimaryType::Name(_) | PrimaryType::Map { .. } | PrimaryType::Future { .. } => false,
            PrimaryType::Error { .. } | PrimaryType::Tuple { .. } => false,
            PrimaryType::ClosedRecord { .. } | PrimaryType::OpenRecord { .. } => false,
            PrimaryType::AnyFunction { .. } => false,
        }
    }

    /// Whether the last token of the type is the keyword `int`.
    #[cycle(ends)]
    pub fn ends_in_int(&self) -> bool
        ensures { result ≡ (primary_type_end self.now).in_int }
    {
        match self {
            PrimaryType::Builtin { builtin, .. } => matches!(builtin, BuiltinType::Int),
            PrimaryType::Function {
                result: Some(t),
                ..
            } => t.ends_in_int(),
            PrimaryType::Function { result: None, .. } | PrimaryType::Literal(_) => false,
            PrimaryType::Negative { .. } | PrimaryType::Parens { .. } => false,
            PrimaryType::Name(_) | PrimaryType::Map { .. } | PrimaryType::Future { .. } => false,
            PrimaryType::Error { .. } | PrimaryType::Tuple { .. } => false,
            PrimaryType::ClosedRecord { .. } | PrimaryType::OpenRecord { .. } => false,
            PrimaryType::AnyFunction { .. } => false,
        }
    }
}
