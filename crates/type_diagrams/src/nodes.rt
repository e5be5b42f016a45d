//! The table of nodes.
ghost use Rattle.std.specs.Prelude.{◌≡◌, ◌+◌, ◌<◌, ◌≤◌, ℕ, IfOk, IfSome, []};
ghost use Rattle.std.specs.Option.{option_copied};
ghost use Rattle.type_diagrams.specs.Tables.{AreNodes, IsBelow, DependBelow};
ghost use Rattle.type_diagrams.specs.Kinds.{the_mark};
ghost use Rattle.type_diagrams.specs.Trees as order;
ghost use Rattle.type_diagrams.specs.Decisions.{Grows, AddBelow, IsNumber, StartsFrom, CanFollow, IsNodeFor, node_at, IsSplit, IsFirstLiteral};
ghost use Rattle.type_diagrams.specs.Operations.{CanStep, IsResultOf};

use crate::node::{MARK, MOST_NODES, Node};
use crate::operation::Step;
use bal_base::Memory;
use indexmap::IndexSet;
use std::alloc::Global;
use std::collections::HashMap;
use std::marker::Model;

/// The number of the decision that is false.
pub const FALSE: u32 = 0;

/// The number of the decision that is true.
pub const TRUE: u32 = 1;

/// Nodes by their numbers, no two of them equal, and the results of the operations on them.
#[derive(Drop)]
pub struct Nodes {
    table: IndexSet<Node>,
    results: HashMap<Step, u32>,
}

impl Model for Nodes {
    ghost use Rattle.std.specs.Prelude.{List};
    ghost use Rattle.type_diagrams.specs.declared.node.Node.{Node};
    ghost use Rattle.type_diagrams.specs.Operations.{AreKept};

    ghost Value = { List Node };

    ghost view = { λ a. a.table.keys };

    ghost invariant = { λ a. AreKept a.table.keys a.results };
}

impl Nodes {
    /// No nodes.
    pub fn new(alloc: Global) -> Nodes
        ensures { result ≡ [] }
    {
        Nodes {
            table: IndexSet::new(alloc),
            results: HashMap::new(alloc),
        }
    }

    /// The nodes, in the order of their numbers. Takes no memory.
    pub fn as_slice(&self) -> &[Node]
        ensures nodes { result.now ≡ self.now }
        ensures are { AreNodes self.now }
    {
        self.table.as_slice()
    }

    /// The number of a decision by the node: that of the node itself, which may be there already, or that
    /// of its followers where these are one.
    pub fn number(&mut self, node: Node) -> Result<u32, Memory>
        requires { CanFollow self.old node }
        ensures grows { Grows self.old self.new }
        ensures are { AreNodes self.new }
        ensures atoms { (n : ℕ) → IsBelow n node.on → DependBelow n self.old → DependBelow n self.new }
        ensures made { IfOk result (IsNodeFor self.old self.new node) }
    {
        let _ = &self.table;
        if node.yes == node.no {
            return Ok(node.yes);
        }
        match self.table.get_index_of(&node) {
            Some(place) => Ok(place as u32 + 2),
            None => {
                let place = self.table.len();
                if place >= MOST_NODES {
                    return Err(Memory);
                }
                self.table.insert(node)?;
                Ok(place as u32 + 2)
            }
        }
    }

    /// The node with the number, unless it is 0 or 1.
    fn node(&self, number: u32) -> Option<&Node>
        ensures node { option_copied result ≡ node_at self.now number }
        ensures are { AreNodes self.now }
    {
        let table = &self.table;
        let place = (number as usize).checked_sub(2)?;
        table.get_index(place)
    }

    /// The literal that comes first in two decisions, of which the second is a node.
    fn first_literal(&self, left: u32, right: u32) -> u32
        requires left { IsNumber self.now left }
        requires right { IsNumber self.now right }
        requires node { 1 < right }
        ensures { IsFirstLiteral self.now left right result }
    {
        let on = self.as_slice()[right as usize - 2].on;
        match self.node(left) {
            None => on,
            Some(node) => {
                if rank(node.on) < rank(on) {
                    node.on
                } else {
                    on
                }
            }
        }
    }

    /// What follows a decision where the literal holds, and where it doesn't.
    fn followers(&self, number: u32, on: u32) -> (u32, u32)
        requires number { IsNumber self.now number }
        requires starts { StartsFrom self.now (order.rank on) number }
        ensures { IsSplit self.now on number result.0 result.1 }
    {
        match self.node(number) {
            None => (number, number),
            Some(node) => {
                if node.on == on {
                    (node.yes, node.no)
                } else {
                    (number, number)
                }
            }
        }
    }

    /// The number of the result of an operation. Results are remembered.
    pub fn apply(&mut self, step: Step) -> Result<u32, Memory>
        requires { CanStep self.old step }
        ensures grows { Grows self.old self.new }
        ensures are { AreNodes self.new }
        ensures atoms { AddBelow 0 self.old self.new }
        ensures made { IfOk result (IsResultOf self.old step self.new) }
    {
        let _ = &self.table;
        if let Some(known) = step.settled() {
            return Ok(known);
        }
        if let Some(known) = self.remembered(step) {
            return Ok(known);
        }
        let on = self.first_literal(step.left, step.right);
        let left = self.followers(step.left, on);
        let right = self.followers(step.right, on);
        let yes = self.apply(step.at(left.0, right.0))?;
        let no = self.apply(step.at(left.1, right.1))?;
        let made = self.number(Node { on, yes, no })?;
        self.remember(step, made)?;
        Ok(made)
    }

    /// The result of an operation that was made before.
    fn remembered(&self, step: Step) -> Option<u32>
        ensures { IfSome result (IsResultOf self.now step self.now) }
    {
        self.results.get(&step).copied()
    }

    fn remember(&mut self, step: Step, number: u32) -> Result<(), Memory>
        requires step { CanStep self.old step }
        requires result { IsResultOf self.old step self.old number }
        ensures { self.new ≡ self.old }
    {
        self.results.insert(step, number)?;
        Ok(())
    }
}

/// The place of a literal in the order of decisions: the mark is first, then the atoms by their numbers.
fn rank(on: u32) -> u32
    requires { on ≤ the_mark }
    ensures { result ≡ order.rank on }
{
    if on == MARK { 0 } else { on + 1 }
}
