//! Simple values, and the sets of shapes as which they are asked about.
ghost use Rattle.std.specs.Prelude.{◌≡◌, Bool, IfOk, []};
ghost use Rattle.value_model.specs.declared.filler.Filler.TheVariants.{Bool as Truth, Str as StrOf};
ghost use Rattle.filler_tables.specs.Values.{IsBooleans, IsKindOf, alone_of, sample_of as sample_of_found, sample_of_shape};

use bal_base::{Memory, Shape, Text};
use std::alloc::Global;
use type_model::{BasicSet, SemType};
use value_model::Filler;

/// What a shape of a type is, where it has one.
#[derive(Drop)]
pub enum Sample {
    /// This simple value.
    Value(Filler),
    /// No simple value.
    Other,
    /// The type has no shape.
    Empty,
}

/// All values of a kind, as a type, and which of them fills a gap where a type has only such values.
#[derive(Drop)]
pub struct Kind {
    pub whole: SemType,
    pub first: Filler,
}

/// The same filler again, which shares its text. Takes no memory.
pub(crate) fn share(f: &Filler) -> Filler
    ensures { result ≡ f.now }
{
    match f {
        Filler::Nothing => Filler::Nothing,
        Filler::Nil => Filler::Nil,
        Filler::Bool(b) => Filler::Bool(*b),
        Filler::Int(i) => Filler::Int(*i),
        Filler::Str(text) => Filler::Str(text.share()),
        Filler::List(a) => Filler::List(*a),
        Filler::Mapping(a) => Filler::Mapping(*a),
    }
}

/// What the shape is. Takes no memory.
fn of_shape(shape: &Shape) -> Sample
    ensures { result ≡ sample_of_shape shape.now }
{
    match shape {
        Shape::Nil => Sample::Value(Filler::Nil),
        Shape::Bool(b) => Sample::Value(Filler::Bool(*b)),
        Shape::Int(i) => Sample::Value(Filler::Int(*i)),
        Shape::Str(text) => Sample::Value(Filler::Str(text.share())),
        Shape::List { .. } | Shape::Mapping { .. } | Shape::Error { .. } => Sample::Other,
        Shape::Function { .. } | Shape::Future { .. } => Sample::Other,
    }
}

/// What was found of a type; lets go of it.
pub(crate) fn sample_of(found: Option<Shape>) -> Sample
    ensures { result ≡ sample_of_found found }
{
    match &found {
        Some(shape) => of_shape(shape),
        None => Sample::Empty,
    }
}

/// The set of the value alone; no shape where it is none. Takes no memory.
pub(crate) fn alone(own: &Filler) -> BasicSet
    ensures { result ≡ alone_of own.now }
{
    match own {
        Filler::Nil => BasicSet::Nil,
        Filler::Bool(b) => BasicSet::Bool(*b),
        Filler::Int(i) => BasicSet::IntRange(*i, *i),
        Filler::Str(text) => BasicSet::StringOne(text.share()),
        Filler::Nothing | Filler::List(_) | Filler::Mapping(_) => BasicSet::Never,
    }
}

fn booleans(alloc: Global) -> Result<SemType, Memory>
    ensures { IfOk result IsBooleans }
{
    let yes = Box::new(alloc, SemType::Basic(BasicSet::Bool(true)))?;
    let no = Box::new(alloc, SemType::Basic(BasicSet::Bool(false)))?;
    Ok(SemType::Or(yes, no))
}

fn of_booleans(alloc: Global) -> Result<Kind, Memory>
    ensures { (b : Bool) → IfOk result (IsKindOf (Truth b)) }
{
    let whole = booleans(alloc)?;
    Ok(Kind {
        whole,
        first: Filler::Bool(false),
    })
}

fn of_strings(alloc: Global) -> Result<Kind, Memory>
    ensures { IfOk result (IsKindOf (StrOf [])) }
{
    let text = Text::new(alloc, "")?;
    Ok(Kind {
        whole: SemType::Basic(BasicSet::StringAll),
        first: Filler::Str(text),
    })
}

/// The kind of which the value is.
pub(crate) fn kind_of(alloc: Global, own: &Filler) -> Result<Kind, Memory>
    ensures { IfOk result (IsKindOf own.now) }
{
    match own {
        Filler::Bool(_) => of_booleans(alloc),
        Filler::Int(_) => Ok(Kind {
            whole: SemType::Basic(BasicSet::IntRange(i64::MIN, i64::MAX)),
            first: Filler::Int(0),
        }),
        Filler::Str(_) => of_strings(alloc),
        Filler::Nil => Ok(Kind {
            whole: SemType::Basic(BasicSet::Nil),
            first: Filler::Nil,
        }),
        Filler::Nothing | Filler::List(_) | Filler::Mapping(_) => Ok(Kind {
            whole: SemType::Basic(BasicSet::Never),
            first: Filler::Nothing,
        }),
    }
}
