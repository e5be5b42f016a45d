//! Which shapes are in a basic set.
ghost use Rattle.std.specs.Prelude.{◌↔◌, IsTrue};
ghost use Rattle.type_model.specs.Basic.{InBasic};
ghost use Rattle.subtype_decider.specs.Arguments.{HasAllLists};

use bal_base::Shape;
use type_model::BasicSet;

/// Whether the shape is one of the set's.
pub fn in_basic(shape: &Shape, set: &BasicSet) -> bool
    ensures { IsTrue result ↔ InBasic shape.now set.now }
{
    match shape {
        Shape::Nil => matches!(set, BasicSet::Nil | BasicSet::Readonly),
        Shape::Bool(b) => match set {
            BasicSet::Bool(c) => b == c,
            BasicSet::Readonly => true,
            _ => false,
        },
        Shape::Int(i) => match set {
            BasicSet::IntRange(low, high) => low <= i && i <= high,
            BasicSet::Readonly => true,
            _ => false,
        },
        Shape::Str(text) => match set {
            BasicSet::StringOne(one) => text == one,
            BasicSet::StringAll | BasicSet::Readonly => true,
            _ => false,
        },
        Shape::List { mark, .. } => match set {
            BasicSet::ListAll => true,
            BasicSet::Readonly => *mark,
            _ => false,
        },
        Shape::Mapping { mark, .. } => match set {
            BasicSet::MappingAll => true,
            BasicSet::Readonly => *mark,
            _ => false,
        },
        Shape::Error { .. } => matches!(set, BasicSet::ErrorAll | BasicSet::Readonly),
        Shape::Function { .. } => matches!(set, BasicSet::FunctionAll | BasicSet::Readonly),
        Shape::Future { .. } => matches!(set, BasicSet::FutureAll),
    }
}

/// Whether unmarked lists are in the set.
pub fn has_all_lists(set: &BasicSet) -> bool
    ensures { IsTrue result ↔ HasAllLists set.now }
{
    matches!(set, BasicSet::ListAll)
}
