//! Copies of shapes.
ghost use Rattle.std.specs.Prelude.{IfOk};
ghost use Rattle.std.specs.List.{AllZip};
ghost use Rattle.bal_base.specs.Same.{IsSame, IsSameField, IsSameCase, IsSameResult};

use crate::shape::{Case, Fields, Graph, Shape, Shapes};
use crate::stop::Memory;
use crate::text::Text;
use std::alloc::Global;

impl Shape {
    /// A copy of the shape, which shares the texts. Takes time and memory linear in the shape's size.
    #[cycle(copy)]
    pub fn copy(&self, alloc: Global) -> Result<Shape, Memory>
        ensures { IfOk result (IsSame self.now) }
    {
        match self {
            Shape::Nil => Ok(Shape::Nil),
            Shape::Bool(b) => Ok(Shape::Bool(*b)),
            Shape::Int(i) => Ok(Shape::Int(*i)),
            Shape::Str(text) => Ok(Shape::Str(text.share())),
            Shape::List { mark, items } => Ok(Shape::List {
                mark: *mark,
                items: Shapes::of(copies(items.as_slice(), alloc)?),
            }),
            Shape::Mapping { mark, fields } => Ok(Shape::Mapping {
                mark: *mark,
                fields: Fields::of(copy_fields(fields.as_slice(), alloc)?),
            }),
            Shape::Error { detail } => Ok(Shape::Error {
                detail: Box::new(alloc, detail.copy(alloc)?)?,
            }),
            Shape::Function { isolated, graph } => Ok(Shape::Function {
                isolated: *isolated,
                graph: Graph::of(copy_cases(graph.as_slice(), alloc)?),
            }),
            Shape::Future { results } => Ok(Shape::Future {
                results: Shapes::of(copies(results.as_slice(), alloc)?),
            }),
        }
    }
}

#[cycle(copy)]
fn copies(shapes: &[Shape], alloc: Global) -> Result<Vec<Shape>, Memory>
    ensures { IfOk result (λ made. AllZip IsSame shapes.now made.items) }
{
    let mut made = Vec::new(alloc);
    for x in shapes {
        made.push(x.copy(alloc)?)?;
    }
    Ok(made)
}

#[cycle(copy)]
fn copy_fields(fields: &[(Text, Shape)], alloc: Global) -> Result<Vec<(Text, Shape)>, Memory>
    ensures { IfOk result (λ made. AllZip IsSameField fields.now made.items) }
{
    let mut made = Vec::new(alloc);
    for (key, x) in fields {
        made.push((key.share(), x.copy(alloc)?))?;
    }
    Ok(made)
}

#[cycle(copy)]
fn copy_cases(cases: &[Case], alloc: Global) -> Result<Vec<Case>, Memory>
    ensures { IfOk result (λ made. AllZip IsSameCase cases.now made.items) }
{
    let mut made = Vec::new(alloc);
    for case in cases {
        made.push(copy_case(case, alloc)?)?;
    }
    Ok(made)
}

#[cycle(copy)]
fn copy_case(case: &Case, alloc: Global) -> Result<Case, Memory>
    ensures { IfOk result (IsSameCase case.now) }
{
    Ok(Case {
        args: Shapes::of(copies(case.args.as_slice(), alloc)?),
        result: copy_result(&case.result, alloc)?,
    })
}

#[cycle(copy)]
fn copy_result(answer: &Option<Shape>, alloc: Global) -> Result<Option<Shape>, Memory>
    ensures { IfOk result (IsSameResult answer.now) }
{
    match answer {
        None => Ok(None),
        Some(x) => Ok(Some(x.copy(alloc)?)),
    }
}
