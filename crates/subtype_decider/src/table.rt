//! The table of questions.
ghost use Rattle.std.specs.Prelude.{◌≡◌, ◌↔◌, ◌++◌, ◌∷◌, ◌<◌, ◌^◌, [], IsTrue, OnOk, OnErr, length, map, take};
ghost use Rattle.subtype_decider.specs.Entries.{AreApart, IsFound, IsWithout, Knows, pair_of};
ghost use Rattle.subtype_decider.specs.Working.{IsWithoutAll, KeepsShape};
ghost use Rattle.type_diagrams.specs.Kept.{IsUnknown};

use crate::held::Held;
use bal_base::Memory;
use indexmap::IndexSet;
use std::alloc::Global;
use std::marker::Model;
use type_diagrams::Member;
use witness::Witness;

/// What is kept of a question, which is the number of a diagram: a shape of it, or that it has none. A shape
/// shares its parts with those of other questions. Entries are compared by their questions alone.
#[derive(Drop)]
#[derive_where(PartialEq, Eq, Hash)]
pub struct Entry {
    pub question: u32,
    #[derive_where(skip(EqHashOrd))]
    pub shape: Option<Witness>,
}

/// Entries, no two of which have the same question. Contracts see them as pairs. While a call works, an
/// entry without a shape is of a question that it holds to be empty.
#[derive(Drop)]
pub struct Table {
    entries: IndexSet<Entry>,
}

impl Model for Table {
    ghost use Rattle.std.specs.Prelude.{ℕ, List, Option, map};
    ghost use Rattle.std.specs.Coded.{codes};
    ghost use Rattle.bal_base.specs.declared.shape.Shape.{Shape};
    ghost use Rattle.bal_base.specs.contracts.shape.Shape as shape;

    ghost Value = { List (ℕ × Option Shape) };

    ghost coded = { Prim.hlevel (codes, shape.the_row.coded) };

    ghost use Rattle.subtype_decider.specs.Entries.{pair_of};

    ghost view = { λ a. map pair_of a.entries.keys };
}

impl Table {
    /// No entries.
    pub fn new(alloc: Global) -> Table
        ensures { result ≡ [] }
    {
        Table {
            entries: IndexSet::new(alloc),
        }
    }

    /// The entries. Their order says nothing: where one is dropped, the last one takes its place.
    pub fn as_slice(&self) -> &[Entry]
        ensures entries { map pair_of result.now ≡ self.now }
        ensures apart { AreApart self.now }
    {
        self.entries.as_slice()
    }

    /// How many entries there are.
    pub fn len(&self) -> usize
        ensures len { result ≡ length self.now }
        ensures small { result < 2 ^ 63 }
    {
        self.entries.len()
    }

    /// One more entry.
    pub(crate) fn add(&mut self, question: u32, shape: Option<Witness>) -> Result<(), Memory>
        requires { IsUnknown self.old question }
        ensures added { OnOk result (self.new ≡ self.old ++ (question, shape) ∷ []) }
        ensures refused { OnErr result (self.new ≡ self.old) }
    {
        self.entries.insert(Entry { question, shape })?;
        Ok(())
    }

    /// Whether a shape of the question is kept.
    pub(crate) fn has_shape(&self, question: u32) -> bool
        requires { AreApart self.now }
        ensures { IsTrue result ↔ KeepsShape self.now question }
    {
        match self.seen(question) {
            Some(shape) => shape.is_some(),
            None => false,
        }
    }

    /// Keeps a shape of a question that is known.
    pub(crate) fn find(&mut self, question: u32, shape: Witness)
        requires { Knows self.old question }
        ensures found { IsFound self.old self.new question shape }
        ensures apart { AreApart self.new }
    {
        let _replaced = self.entries.replace(Entry {
            question,
            shape: Some(shape),
        });
    }

    /// Drops the entry of a question.
    fn remove(&mut self, question: u32)
        ensures without { IsWithout self.old self.new question }
        ensures apart { AreApart self.new }
    {
        self.entries.swap_remove(&Entry {
            question,
            shape: None,
        });
    }

    /// Drops the entries of the questions, and forgets these.
    pub(crate) fn forget(&mut self, held: &mut Vec<Held>)
        requires { AreApart self.old }
        ensures apart { AreApart self.new }
        ensures none { held.new.items ≡ [] }
        ensures without { IsWithoutAll self.old self.new held.old.items }
    {
        while let Some(last) = held.pop() {
            self.remove(last.question);
        }
    }

    /// Keeps the first entries alone.
    pub(crate) fn cut(&mut self, len: usize)
        ensures { self.new ≡ take len self.old }
    {
        self.entries.truncate(len);
    }
}

impl Member for Table {
    ghost use Rattle.std.specs.Prelude.{ℕ, List, Option};

    ghost kept = { λ t. t };

    fn seen(&self, question: u32) -> Option<Option<&Witness>> {
        let entry = self.entries.get(&Entry {
            question,
            shape: None,
        })?;
        Some(entry.shape.as_ref())
    }
}
