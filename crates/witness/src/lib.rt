//! Shapes whose parts are shared: what a table of questions keeps of a question, and what is said of a path.
//!
//! - [`Witness`]: a shape that is kept once, however many have it as a part. Contracts see it as its `Shape`, so
//!   all that is said of shapes holds of witnesses as it stands. `whole`, `list`, `mapping` and `error` make one,
//!   `share` gives the same once more, and `copied` a shape by itself.
#![tactic(auto)]

ghost use Rattle.std.specs.Prelude.{◌≡◌, List, IfOk};
ghost use Rattle.bal_base.specs.declared.shape.Shape.{List as AList, Mapping as AMapping};
ghost use Rattle.witness.specs.Errors.{IsErrorWith};

use bal_base::{Memory, Shape, Text};
use std::alloc::Global;
use std::marker::Model;
use std::rc::Rc;

/// A shape that is kept once, however many have it as a part. The last owner's end takes time by the number of
/// parts that nobody else owns.
#[cycle(witness)]
#[derive(Drop)]
pub struct Witness {
    node: Rc<Node>,
}

#[cycle(witness)]
#[derive(Drop)]
enum Node {
    Whole(Shape),
    List {
        mark: bool,
        items: Vec<Witness>,
    },
    Mapping {
        mark: bool,
        fields: Vec<(Text, Witness)>,
    },
    Error {
        detail: Box<Witness>,
    },
}

impl Model for Witness {
    ghost use Rattle.std.specs.Coded.{codes};
    ghost use Rattle.bal_base.specs.contracts.shape.Shape as shape;
    ghost use Rattle.bal_base.specs.declared.shape.Shape.{Shape};

    ghost Value = { Shape };

    ghost coded = { shape.the_row.coded };

    ghost use Rattle.witness.specs.Seen.{shape_of};

    ghost view = { λ a. shape_of a.node.value };

    ghost use Rattle.bal_base.specs.Levels.{levels};

    ghost size = { levels };

    ghost use Rattle.std.proofs.Common.{arith};
    ghost use Rattle.witness.specs.Falls.{falls};

    ghost size_decreases = { λ a h. omega (arith, falls a.node.value) };
}

impl Witness {
    /// A shape alone. Takes memory for one part; refused where there is none.
    pub fn whole(alloc: Global, shape: Shape) -> Result<Witness, Memory>
        ensures { IfOk result (λ w. w ≡ shape) }
    {
        Ok(Witness {
            node: Rc::new(alloc, Node::Whole(shape))?,
        })
    }

    /// The same shape once more. Takes neither time nor memory; refused where so many own it already that they
    /// can't be counted.
    pub fn share(&self) -> Result<Witness, Memory>
        ensures { IfOk result (λ w. w ≡ self.now) }
    {
        Ok(Witness {
            node: self.node.clone()?,
        })
    }

    /// The list of these, with the mark or without it. Takes memory for one part; refused where there is none.
    pub fn list(alloc: Global, mark: bool, items: Vec<Witness>) -> Result<Witness, Memory>
        ensures { IfOk result (λ w. w ≡ AList mark (record { items = items })) }
    {
        Ok(Witness {
            node: Rc::new(alloc, Node::List { mark, items })?,
        })
    }

    /// The mapping with these fields, with the mark or without it. Takes memory for one part; refused where there is
    /// none.
    pub fn mapping(
        alloc: Global,
        mark: bool,
        fields: Vec<(Text, Witness)>,
    ) -> Result<Witness, Memory>
        ensures { IfOk result (λ w. w ≡ AMapping mark (record { items = fields })) }
    {
        Ok(Witness {
            node: Rc::new(alloc, Node::Mapping { mark, fields })?,
        })
    }

    /// The error with this detail. Takes memory for two parts; refused where there is none.
    pub fn error(alloc: Global, detail: Witness) -> Result<Witness, Memory>
        ensures { IfOk result (IsErrorWith detail) }
    {
        let detail = Box::new(alloc, detail)?;
        Ok(Witness {
            node: Rc::new(alloc, Node::Error { detail })?,
        })
    }
}

mod copied;
