//! Witnesses as shapes of their own.
ghost use Rattle.std.specs.Prelude.{IfOk};
ghost use Rattle.std.specs.List.{AllZip};
ghost use Rattle.bal_base.specs.Same.{IsSame, IsSameField};

use crate::{Node, Witness};
use bal_base::{Fields, Memory, Shape, Shapes, Text};
use std::alloc::Global;

impl Witness {
    /// The shape by itself, with each part as often as it stands in it. Takes time and memory by the size of the
    /// shape so written out; refused where there is no memory.
    #[cycle(copied)]
    pub fn copied(&self, alloc: Global) -> Result<Shape, Memory>
        ensures { IfOk result (IsSame self.now) }
    {
        match &*self.node {
            Node::Whole(shape) => shape.copy(alloc),
            Node::List { mark, items } => Ok(Shape::List {
                mark: *mark,
                items: Shapes::of(all_copied(items, alloc)?),
            }),
            Node::Mapping { mark, fields } => Ok(Shape::Mapping {
                mark: *mark,
                fields: Fields::of(fields_copied(fields, alloc)?),
            }),
            Node::Error { detail } => Ok(Shape::Error {
                detail: Box::new(alloc, detail.copied(alloc)?)?,
            }),
        }
    }
}

#[cycle(copied)]
fn all_copied(parts: &[Witness], alloc: Global) -> Result<Vec<Shape>, Memory>
    ensures { IfOk result (λ made. AllZip IsSame parts.now made.items) }
{
    let mut made = Vec::new(alloc);
    for x in parts {
        made.push(x.copied(alloc)?)?;
    }
    Ok(made)
}

#[cycle(copied)]
fn fields_copied(fields: &[(Text, Witness)], alloc: Global) -> Result<Vec<(Text, Shape)>, Memory>
    ensures { IfOk result (λ made. AllZip IsSameField fields.now made.items) }
{
    let mut made = Vec::new(alloc);
    for (key, x) in fields {
        made.push((key.share(), x.copied(alloc)?))?;
    }
    Ok(made)
}
