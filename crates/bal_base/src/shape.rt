//! Shapes: finite values as types see them. A mutable list or mapping has many shapes, a simple value one.

ghost use Rattle.std.specs.Prelude.{◌≡◌};
ghost use Rattle.bal_base.specs.Shapes.{shapes_list, fields_list, graph_list};

use crate::text::Text;

/// A value as types see it, whole and finite.
#[cycle(shape)]
#[derive(Drop)]
pub enum Shape {
    Nil,
    Bool(bool),
    Int(i64),
    Str(Text),
    /// A list of these items; it is marked where it can't be changed.
    List { mark: bool, items: Shapes },
    /// A mapping or record with these fields, their names rising; it is marked where it can't be changed.
    Mapping { mark: bool, fields: Fields },
    /// An error by its detail, a marked mapping.
    Error { detail: Box<Shape> },
    /// A function by what it answers to some lists of arguments.
    Function { isolated: bool, graph: Graph },
    /// A future by what may come of it.
    Future { results: Shapes },
}

/// Shapes in order: the items of a list, the arguments of a case, or the results of a future.
#[cycle(shape)]
#[derive(Drop)]
pub struct Shapes {
    items: Vec<Shape>,
}

/// The fields of a mapping: names with the shapes of their values.
#[cycle(shape)]
#[derive(Drop)]
pub struct Fields {
    items: Vec<(Text, Shape)>,
}

/// The cases of a function: those that it is known by.
#[cycle(shape)]
#[derive(Drop)]
pub struct Graph {
    items: Vec<Case>,
}

/// What a function answers to a list of arguments: `None` is a failure.
#[cycle(shape)]
#[derive(Drop)]
pub struct Case {
    pub args: Shapes,
    pub result: Option<Shape>,
}

impl Shapes {
    /// These shapes. Takes no memory.
    pub fn of(items: Vec<Shape>) -> Shapes
        ensures { shapes_list result ≡ items.items }
    {
        Shapes { items }
    }

    /// The shapes, in order.
    pub fn as_slice(&self) -> &[Shape]
        ensures { result.now ≡ shapes_list self.now }
    {
        self.items.as_slice()
    }
}

impl Fields {
    /// These fields. Takes no memory.
    pub fn of(items: Vec<(Text, Shape)>) -> Fields
        ensures { fields_list result ≡ items.items }
    {
        Fields { items }
    }

    /// The fields, in order.
    pub fn as_slice(&self) -> &[(Text, Shape)]
        ensures { result.now ≡ fields_list self.now }
    {
        self.items.as_slice()
    }
}

impl Graph {
    /// These cases. Takes no memory.
    pub fn of(items: Vec<Case>) -> Graph
        ensures { graph_list result ≡ items.items }
    {
        Graph { items }
    }

    /// The cases, in order.
    pub fn as_slice(&self) -> &[Case]
        ensures { result.now ≡ graph_list self.now }
    {
        self.items.as_slice()
    }
}

mod copy;
mod valid;
