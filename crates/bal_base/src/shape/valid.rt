//! Which shapes are valid.
ghost use Rattle.std.specs.Prelude.{◌≡◌, ◌↔◌, IsTrue, All};
ghost use Rattle.bal_base.specs.Valid.{IsFrozen, IsMarkedMapping, IsValid, CaseIsValid, KeysRise, IsInt, IsText, AreTexts};

use crate::shape::{Case, Shape};
use crate::text::Text;

impl Shape {
    /// Whether the shape may stand in a marked list or mapping.
    pub fn is_frozen(&self) -> bool
        ensures { IsTrue result ↔ IsFrozen self.now }
    {
        match self {
            Shape::Nil | Shape::Bool(_) | Shape::Int(_) | Shape::Str(_) => true,
            Shape::List { mark, .. } | Shape::Mapping { mark, .. } => *mark,
            Shape::Error { .. } | Shape::Function { .. } | Shape::Future { .. } => false,
        }
    }

    /// Whether it is a mapping that is marked, as the detail of an error has to be.
    pub fn is_marked_mapping(&self) -> bool
        ensures { IsTrue result ↔ IsMarkedMapping self.now }
    {
        match self {
            Shape::Mapping { mark, .. } => *mark,
            Shape::Nil | Shape::Bool(_) | Shape::Int(_) | Shape::Str(_) | Shape::List { .. } =>
                false,
            Shape::Error { .. } | Shape::Function { .. } | Shape::Future { .. } => false,
        }
    }

    /// Whether it is the shape of a value: names of fields rise, what is marked holds nothing that can be changed, and details of errors
    /// are marked mappings, all the way down. It takes time and stack by the shape.
    #[cycle(valid)]
    pub fn is_valid(&self) -> bool
        ensures { IsTrue result ↔ IsValid self.now }
    {
        match self {
            Shape::Nil | Shape::Bool(_) => true,
            Shape::Int(i) => is_int(*i),
            Shape::Str(text) => is_text(text),
            Shape::List { mark, items } => list_valid(*mark, items.as_slice()),
            Shape::Mapping { mark, fields } => mapping_valid(*mark, fields.as_slice()),
            Shape::Error { detail } => detail.is_marked_mapping() && detail.is_valid(),
            Shape::Function { graph, .. } => graph_valid(graph.as_slice()),
            Shape::Future { results } => are_valid(results.as_slice()),
        }
    }
}

fn is_int(i: i64) -> bool
    ensures { IsTrue result ↔ IsInt i }
{
    let _ = i;
    true
}

fn is_text(text: &Text) -> bool
    ensures { IsTrue result ↔ IsText text.now }
{
    let _ = text.as_str();
    true
}

fn are_texts(fields: &[(Text, Shape)]) -> bool
    ensures { IsTrue result ↔ AreTexts fields.now }
{
    fields.iter().all(|f| is_text(&f.0))
}

fn are_frozen(shapes: &[Shape]) -> bool
    ensures { IsTrue result ↔ All IsFrozen shapes.now }
{
    shapes.iter().all(|x| x.is_frozen())
}

fn fields_frozen(fields: &[(Text, Shape)]) -> bool
    ensures { IsTrue result ↔ All (λ f. IsFrozen f.1) fields.now }
{
    fields.iter().all(|(_, x)| x.is_frozen())
}

fn rise(fields: &[(Text, Shape)]) -> bool
    ensures { IsTrue result ↔ KeysRise fields.now }
{
    for i in 1..fields.len() {
        if fields[i - 1].0 >= fields[i].0 {
            return false;
        }
    }
    true
}

#[cycle(valid)]
fn list_valid(mark: bool, items: &[Shape]) -> bool
    ensures { IsTrue result ↔ (IsTrue mark → All IsFrozen items.now) × All IsValid items.now }
{
    (!mark || are_frozen(items)) && are_valid(items)
}

#[cycle(valid)]
fn mapping_valid(mark: bool, fields: &[(Text, Shape)]) -> bool
    ensures { IsTrue result ↔ AreTexts fields.now × KeysRise fields.now × (IsTrue mark → All (λ f. IsFrozen f.1) fields.now) × All (λ f. IsValid f.1) fields.now }
{
    are_texts(fields) && rise(fields) && (!mark || fields_frozen(fields)) && fields_valid(fields)
}

#[cycle(valid)]
fn are_valid(shapes: &[Shape]) -> bool
    ensures { IsTrue result ↔ All IsValid shapes.now }
{
    for x in shapes {
        if !x.is_valid() {
            return false;
        }
    }
    true
}

#[cycle(valid)]
fn fields_valid(fields: &[(Text, Shape)]) -> bool
    ensures { IsTrue result ↔ All (λ f. IsValid f.1) fields.now }
{
    for (_, x) in fields {
        if !x.is_valid() {
            return false;
        }
    }
    true
}

#[cycle(valid)]
fn graph_valid(cases: &[Case]) -> bool
    ensures { IsTrue result ↔ All CaseIsValid cases.now }
{
    for case in cases {
        if !case_valid(case) {
            return false;
        }
    }
    true
}

#[cycle(valid)]
fn case_valid(case: &Case) -> bool
    ensures { IsTrue result ↔ CaseIsValid case.now }
{
    are_valid(case.args.as_slice())
        && match &case.result {
            Some(x) => x.is_valid(),
            None => true,
        }
}
