//! Whether single values are in types.
#![tactic(auto, using(crate::proofs::SingleValues::values))]

ghost use Rattle.std.specs.Prelude.{◌↔◌, IsTrue};
ghost use Rattle.bal_base.specs.Valid.{IsInt, IsText, IsValid};
ghost use Rattle.type_model.specs.Basic.{InBasic};
ghost use Rattle.type_model.specs.Inclusion.{IsShapeOf};
ghost use Rattle.type_model.specs.Membership.{In};
ghost use Rattle.operations.specs.Rows.{shape_of};

use bal_base::Text;
use operations::Constant;
use type_model::{AtomDef, BasicSet, SemType};

fn is_in_set(set: &BasicSet, value: &Constant) -> bool
    ensures { IsTrue result ↔ InBasic (shape_of value.now) set.now }
{
    match set {
        BasicSet::Nil => matches!(value, Constant::Nil),
        BasicSet::Bool(b) => matches!(value, Constant::Bool(c) if b == c),
        BasicSet::IntRange(low, high) => {
            matches!(value, Constant::Int(i) if low <= i && i <= high)
        }
        BasicSet::StringOne(text) => matches!(value, Constant::Str(t) if t == text),
        BasicSet::StringAll => matches!(value, Constant::Str(_)),
        BasicSet::Readonly => true,
        BasicSet::ListAll | BasicSet::MappingAll | BasicSet::ErrorAll => false,
        BasicSet::FunctionAll | BasicSet::FutureAll | BasicSet::Never => false,
    }
}

fn is_in_type(defs: &[AtomDef], t: &SemType, value: &Constant) -> bool
    ensures { IsTrue result ↔ In defs.now (shape_of value.now) t.now }
{
    match t {
        SemType::Basic(set) => is_in_set(set, value),
        SemType::Atom(_) => false,
        SemType::Or(s, t) => is_in_type(defs, s, value) || is_in_type(defs, t, value),
        SemType::And(s, t) => is_in_type(defs, s, value) && is_in_type(defs, t, value),
        SemType::Not(t) => !is_in_type(defs, t, value),
    }
}

fn is_int(i: i64) -> bool
    ensures { IsTrue result ↔ IsInt i }
{
    let _ = i;
    true
}

fn is_text(text: &Text) -> bool
    ensures { IsTrue result ↔ IsText text.now }
{
    let _ = text.as_str();
    true
}

/// Whether it is a value: an int in range, or a text of characters.
fn is_value(value: &Constant) -> bool
    ensures { IsTrue result ↔ IsValid (shape_of value.now) }
{
    match value {
        Constant::Nil | Constant::Bool(_) => true,
        Constant::Int(i) => is_int(*i),
        Constant::Str(text) => is_text(text),
    }
}

/// Whether the value is one of the type, over these atoms: none of them has it. It looks at each part of the type at most once.
pub fn is_in(defs: &[AtomDef], t: &SemType, value: &Constant) -> bool
    ensures { IsTrue result ↔ IsShapeOf defs.now t.now (shape_of value.now) }
{
    is_value(value) && is_in_type(defs, t, value)
}
