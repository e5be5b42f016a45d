//! Two rising lists of places, as one.
ghost use Rattle.std.specs.Prelude.{◌≡◌, ◌++◌, ◌∷◌, [], IfOk, OnOk, MatchOption, not, if◌then◌else◌};
ghost use Rattle.std.specs.declared.cmp.Ordering.TheVariants.{Equal};
ghost use Rattle.type_diagrams.specs.Sets.{Rises};
ghost use Rattle.type_diagrams.specs.Merges.{IsNext, IsMerged, first_answer, turns_over};

use crate::operation::Operation;
use bal_base::{Memory, Text};
use std::alloc::Global;
use std::cmp::Ordering;

/// What stands at a place: it can be had again without memory.
pub trait Point: Ord + Drop {
    /// The same once more.
    fn again(&self) -> Self
        ensures { result ≡ self.now };
}

impl Point for i64 {
    fn again(&self) -> i64 {
        *self
    }
}

impl Point for Text {
    fn again(&self) -> Text {
        self.share()
    }
}

/// How the answers of two sets make that of a third.
#[derive(Clone, Copy)]
pub struct Rule {
    pub operation: Operation,
    /// Whether a place turns the answer over for all that come after it, and not for itself alone.
    pub lasting: bool,
    /// The answers of the two before their next places.
    pub left: bool,
    pub right: bool,
}

impl Rule {
    /// The answer where the two have theirs.
    pub fn answer(self) -> bool
        ensures { result ≡ first_answer self }
    {
        self.operation.holds(self.left, self.right)
    }

    /// The rule at a place that turns over one of the two or both.
    fn turned(self, left: bool, right: bool) -> Rule
        ensures { result ≡ record self { left = (if left then not self.left else self.left); right = (if right then not self.right else self.right) } }
    {
        Rule {
            left: self.left != left,
            right: self.right != right,
            ..self
        }
    }

    /// Whether the answer at a place, where the rule is this, is another one than before it.
    fn turns_over(self, turned: Rule) -> bool
        ensures { result ≡ turns_over self turned }
    {
        self.answer() != turned.answer()
    }

    /// The rule behind a place, where the rule is this.
    fn behind(self, turned: Rule) -> Rule
        ensures { result ≡ (if self.lasting then turned else self) }
    {
        if self.lasting { turned } else { self }
    }
}

/// The next place of two lists.
#[derive(Drop)]
struct NextPlace<'a, P> {
    place: &'a P,
    in_left: bool,
    in_right: bool,
    left: &'a [P],
    right: &'a [P],
}

fn next_place<'a, P: Point>(left: &'a [P], right: &'a [P]) -> Option<NextPlace<'a, P>>
    requires exact { (p q : P) → P.cmp p q ≡ Equal → p ≡ q }
    requires left { Rises P.cmp left.now }
    requires right { Rises P.cmp right.now }
    ensures { MatchOption result ((left.now ≡ []) × (right.now ≡ [])) (λ n. IsNext P.cmp left.now right.now n.place.now n.in_left n.in_right n.left.now n.right.now) }
{
    match (left.split_first(), right.split_first()) {
        (None, None) => None,
        (Some((place, rest)), None) => Some(NextPlace {
            place,
            in_left: true,
            in_right: false,
            left: rest,
            right,
        }),
        (None, Some((place, rest))) => Some(NextPlace {
            place,
            in_left: false,
            in_right: true,
            left,
            right: rest,
        }),
        (Some((p, ps)), Some((q, qs))) => match p.cmp(q) {
            Ordering::Less => Some(NextPlace {
                place: p,
                in_left: true,
                in_right: false,
                left: ps,
                right,
            }),
            Ordering::Equal => Some(NextPlace {
                place: p,
                in_left: true,
                in_right: true,
                left: ps,
                right: qs,
            }),
            Ordering::Greater => Some(NextPlace {
                place: q,
                in_left: false,
                in_right: true,
                left,
                right: qs,
            }),
        },
    }
}

fn push_if<P: Point>(places: &mut Vec<P>, keep: bool, place: &P) -> Result<(), Memory>
    ensures { OnOk result (places.new.items ≡ (if keep then places.old.items ++ place.now ∷ [] else places.old.items)) }
{
    if keep {
        places.push(place.again())?;
    }
    Ok(())
}

/// The places of the result of an operation on two sets.
pub fn merged<P: Point>(
    alloc: Global,
    rule: Rule,
    left: &[P],
    right: &[P],
) -> Result<Vec<P>, Memory>
    requires exact { (p q : P) → P.cmp p q ≡ Equal → p ≡ q }
    requires left { Rises P.cmp left.now }
    requires right { Rises P.cmp right.now }
    ensures { IfOk result (λ places. IsMerged P.cmp rule left.now right.now places.items) }
{
    let mut rule = rule;
    let (mut left, mut right) = (left, right);
    let mut places = Vec::new(alloc);
    while let Some(next) = next_place(left, right) {
        let turned = rule.turned(next.in_left, next.in_right);
        push_if(&mut places, rule.turns_over(turned), next.place)?;
        rule = rule.behind(turned);
        left = next.left;
        right = next.right;
    }
    Ok(places)
}
