//! Sets of simple shapes.
ghost use Rattle.std.specs.Prelude.{◌≡◌, ◌∷◌, [], IfOk};
ghost use Rattle.bal_base.specs.Valid.{IsText};
ghost use Rattle.type_diagrams.specs.Simple.{by_simple};
ghost use Rattle.type_diagrams.specs.Operations.{meaning};
ghost use Rattle.type_diagrams.specs.Conditions.{has_simple};
ghost use Rattle.type_diagrams.specs.Sets.{IsCanonical, IsSetOf, IsRange, set_of, has_shape, all_or_none};

use crate::merge::{Rule, merged};
use crate::operation::Operation;
use bal_base::{Memory, Text};
use std::alloc::Global;
use type_model::BasicSet;

/// A set of simple shapes. Each is kept in one way only, so that equal sets are equal values.
#[derive(PartialEq, Eq, Hash, Drop)]
pub struct SimpleSet {
    pub nil: bool,
    /// Whether it has false, and whether it has true.
    pub no: bool,
    pub yes: bool,
    /// Whether it has the least int, and the ints from which on this is the other way round.
    pub first: bool,
    pub flips: Vec<i64>,
    /// Whether it has all strings but these, or these alone.
    pub rest: bool,
    pub texts: Vec<Text>,
}

impl SimpleSet {
    /// The set of all simple shapes, or of none.
    pub fn all(alloc: Global, has: bool) -> SimpleSet
        ensures set { set_of result ≡ all_or_none has }
        ensures shapes { IsSetOf (by_simple has (λ b. has) (λ i. has) (λ t. has)) result }
    {
        SimpleSet {
            nil: has,
            no: has,
            yes: has,
            first: has,
            flips: Vec::new(alloc),
            rest: has,
            texts: Vec::new(alloc),
        }
    }

    /// The simple shapes of a basic set.
    pub fn of(alloc: Global, basic: &BasicSet) -> Result<SimpleSet, Memory>
        ensures { IfOk result (IsSetOf (λ x. has_simple x basic.now)) }
    {
        let none = SimpleSet::all(alloc, false);
        match basic {
            BasicSet::Nil => Ok(SimpleSet { nil: true, ..none }),
            BasicSet::Bool(true) => Ok(SimpleSet { yes: true, ..none }),
            BasicSet::Bool(false) => Ok(SimpleSet { no: true, ..none }),
            BasicSet::IntRange(low, high) => {
                let (first, flips) = range(alloc, *low, *high)?;
                Ok(SimpleSet {
                    first,
                    flips,
                    ..none
                })
            }
            BasicSet::StringOne(text) => Ok(SimpleSet {
                texts: one_text(alloc, text)?,
                ..none
            }),
            BasicSet::StringAll => Ok(SimpleSet { rest: true, ..none }),
            BasicSet::Readonly => Ok(SimpleSet::all(alloc, true)),
            BasicSet::ListAll | BasicSet::MappingAll | BasicSet::ErrorAll => Ok(none),
            BasicSet::FunctionAll | BasicSet::FutureAll | BasicSet::Never => Ok(none),
        }
    }

    /// The result of an operation on two sets.
    pub fn made(
        alloc: Global,
        operation: Operation,
        left: &SimpleSet,
        right: &SimpleSet,
    ) -> Result<SimpleSet, Memory>
        requires left { IsCanonical (set_of left.now) }
        requires right { IsCanonical (set_of right.now) }
        ensures { IfOk result (IsSetOf (λ x. meaning operation (has_shape (set_of left.now) x) (has_shape (set_of right.now) x))) }
    {
        let ints = Rule {
            operation,
            lasting: true,
            left: left.first,
            right: right.first,
        };
        let strings = Rule {
            operation,
            lasting: false,
            left: left.rest,
            right: right.rest,
        };
        Ok(SimpleSet {
            nil: operation.holds(left.nil, right.nil),
            no: operation.holds(left.no, right.no),
            yes: operation.holds(left.yes, right.yes),
            first: ints.answer(),
            flips: merged(alloc, ints, &left.flips, &right.flips)?,
            rest: strings.answer(),
            texts: merged(alloc, strings, &left.texts, &right.texts)?,
        })
    }
}

/// The first answer and the flips of the ints from the first to the second.
fn range(alloc: Global, low: i64, high: i64) -> Result<(bool, Vec<i64>), Memory>
    ensures { IfOk result (λ r. IsRange low high r.0 r.1.items) }
{
    if high < low {
        return Ok((false, Vec::new(alloc)));
    }
    if low == i64::MIN {
        if high == i64::MAX {
            Ok((true, Vec::new(alloc)))
        } else {
            Ok((true, vec![in alloc; high + 1]?))
        }
    } else if high == i64::MAX {
        Ok((false, vec![in alloc; low]?))
    } else {
        Ok((false, vec![in alloc; low, high + 1]?))
    }
}

/// The text alone.
fn one_text(alloc: Global, text: &Text) -> Result<Vec<Text>, Memory>
    ensures texts { IfOk result (λ texts. texts.items ≡ text.now ∷ []) }
    ensures text { IsText text.now }
{
    let _ = text.as_str();
    Ok(vec![in alloc; text.share()]?)
}
