//! The operations on decisions.
ghost use Rattle.std.specs.Prelude.{◌≡◌, ◌<◌, IfSome, IfNone};
ghost use Rattle.type_diagrams.specs.Operations.{IsSettledBy, meaning};

use crate::nodes::{FALSE, TRUE};

/// What is made of two decisions.
#[derive(Clone, Copy, PartialEq, Eq, Hash)]
pub enum Operation {
    /// Where one of the two is true, or both.
    Or,
    /// Where both are true.
    And,
    /// Where the first is true and the second isn't.
    Without,
}

impl Operation {
    /// What is made of two answers.
    pub fn holds(self, left: bool, right: bool) -> bool
        ensures { result ≡ meaning self left right }
    {
        match self {
            Operation::Or => left || right,
            Operation::And => left && right,
            Operation::Without => left && !right,
        }
    }
}

/// An operation on the decisions with these numbers.
#[derive(Clone, Copy, PartialEq, Eq, Hash)]
pub struct Step {
    pub operation: Operation,
    pub left: u32,
    pub right: u32,
}

impl Step {
    /// The same operation on other numbers.
    pub fn at(self, left: u32, right: u32) -> Step
        ensures { result ≡ record { operation = self.operation; left = left; right = right } }
    {
        Step {
            operation: self.operation,
            left,
            right,
        }
    }

    /// The number of the result, where that is plain from the numbers alone. Elsewhere the right one is a
    /// node.
    pub fn settled(self) -> Option<u32>
        ensures plain { IfSome result (IsSettledBy self) }
        ensures left { IfNone result (0 < self.left) }
        ensures right { IfNone result (1 < self.right) }
    {
        let (left, right) = (self.left, self.right);
        match self.operation {
            Operation::Or => settled_or(left, right),
            Operation::And => settled_and(left, right),
            Operation::Without => settled_without(left, right),
        }
    }
}

fn settled_or(left: u32, right: u32) -> Option<u32>
    ensures plain { IfSome result (IsSettledBy (record { operation = Operation.Or; left = left; right = right })) }
    ensures left { IfNone result (0 < left) }
    ensures right { IfNone result (1 < right) }
{
    if left == TRUE || right == TRUE {
        Some(TRUE)
    } else if left == right || right == FALSE {
        Some(left)
    } else if left == FALSE {
        Some(right)
    } else {
        None
    }
}

fn settled_and(left: u32, right: u32) -> Option<u32>
    ensures plain { IfSome result (IsSettledBy (record { operation = Operation.And; left = left; right = right })) }
    ensures left { IfNone result (0 < left) }
    ensures right { IfNone result (1 < right) }
{
    if left == FALSE || right == FALSE {
        Some(FALSE)
    } else if left == right || right == TRUE {
        Some(left)
    } else if left == TRUE {
        Some(right)
    } else {
        None
    }
}

fn settled_without(left: u32, right: u32) -> Option<u32>
    ensures plain { IfSome result (IsSettledBy (record { operation = Operation.Without; left = left; right = right })) }
    ensures left { IfNone result (0 < left) }
    ensures right { IfNone result (1 < right) }
{
    if left == FALSE || right == TRUE || left == right {
        Some(FALSE)
    } else if right == FALSE {
        Some(left)
    } else {
        None
    }
}
