//! The steps of decisions, and where those of a diagram begin.
ghost use Rattle.std.specs.Prelude.{◌≡◌, if◌then◌else◌};
ghost use Rattle.type_diagrams.specs.Conditions.{is_kind};
ghost use Rattle.type_diagrams.specs.Tables.{root_of};

use crate::kind::Kind;
use bal_base::MOST_ATOMS;

/// The number that stands for the mark where otherwise numbers of atoms stand: 65,536, which no atom has.
pub const MARK: u32 = MOST_ATOMS as u32;

/// How many nodes there can be, and how many diagrams.
pub const MOST_NODES: usize = 4_294_967_293;

/// A step of a decision. A follower is 0 for false, 1 for true, and k + 2 for the node at place k.
#[derive(Clone, Copy, PartialEq, Eq, Hash)]
pub struct Node {
    /// The atom that is looked at, or 65,536 for the mark.
    pub on: u32,
    /// What follows where the mark or the atom holds.
    pub yes: u32,
    /// What follows where it doesn't.
    pub no: u32,
}

/// A diagram: the number of its set of simple shapes, and for each kind where its decision begins, given
/// as the followers of nodes are.
#[derive(Clone, Copy, PartialEq, Eq, Hash)]
pub struct Diagram {
    pub simple: u32,
    pub list: u32,
    pub mapping: u32,
    pub error: u32,
    pub function: u32,
    pub future: u32,
}

impl Diagram {
    /// No shape beside the simple ones of the set.
    pub fn without_kinds(simple: u32) -> Diagram
        ensures { result ≡ record { simple = simple; list = 0; mapping = 0; error = 0; function = 0; future = 0 } }
    {
        Diagram {
            simple,
            list: 0,
            mapping: 0,
            error: 0,
            function: 0,
            future: 0,
        }
    }

    /// Where the part of a kind begins.
    pub fn root(&self, kind: Kind) -> u32
        ensures { result ≡ root_of self.now kind }
    {
        match kind {
            Kind::List => self.list,
            Kind::Mapping => self.mapping,
            Kind::Error => self.error,
            Kind::Function => self.function,
            Kind::Future => self.future,
        }
    }

    /// The same with another beginning for one kind.
    pub fn with_root(self, kind: Kind, root: u32) -> Diagram
        ensures simple { result.simple ≡ self.simple }
        ensures roots { (k : Kind) → root_of result k ≡ (if is_kind k kind then root else root_of self k) }
    {
        match kind {
            Kind::List => Diagram { list: root, ..self },
            Kind::Mapping => Diagram {
                mapping: root,
                ..self
            },
            Kind::Error => Diagram {
                error: root,
                ..self
            },
            Kind::Function => Diagram {
                function: root,
                ..self
            },
            Kind::Future => Diagram {
                future: root,
                ..self
            },
        }
    }
}
