//! A shape of a set of simple shapes.
ghost use Rattle.std.specs.Prelude.{◌≡◌, ◌++◌, ◌∷◌, ◌<ℤ◌, ◌≤ℤ◌, [], pos, true, IfOk, IfSome};
ghost use Rattle.std.specs.Ordering.{int_cmp, nat_cmp};
ghost use Rattle.std.specs.Cmp.Lexicographic.{slice_cmp};
ghost use Rattle.type_diagrams.specs.Sets.{Each, IsBelowAll, IsCanonical, Rises, answer_for, covers, has_int, has_shape, has_text, least_int, set_of};
ghost use Rattle.bal_base.specs.Valid.{IsInt};
ghost use Rattle.type_diagrams.specs.Found.{FindsSimple, FindsInt, FindsText, IsLeftOut, IsNearest, IsNextToZero};

use crate::simple::SimpleSet;
use bal_base::{Memory, Shape, Text};
use std::alloc::Global;

impl SimpleSet {
    /// A shape of the set, an int as near to 0 as there is one, or `None` where it has none.
    pub fn shape(&self, alloc: Global) -> Result<Option<Shape>, Memory>
        requires { IsCanonical (set_of self.now) }
        ensures found { IfOk result (FindsSimple (has_shape (set_of self.now))) }
        ensures nearest { IfOk result (λ found. IfSome found (IsNearest (has_shape (set_of self.now)))) }
    {
        if self.nil {
            return Ok(Some(Shape::Nil));
        }
        if self.no {
            return Ok(Some(Shape::Bool(false)));
        }
        if self.yes {
            return Ok(Some(Shape::Bool(true)));
        }
        if let Some(int) = self.int() {
            return Ok(Some(Shape::Int(int)));
        }
        match self.text(alloc)? {
            Some(text) => Ok(Some(Shape::Str(text))),
            None => Ok(None),
        }
    }

    /// The int of the set that is nearest to 0.
    fn int(&self) -> Option<i64>
        requires { IsCanonical (set_of self.now) }
        ensures { FindsInt (has_int (set_of self.now)) result }
    {
        nearest(self.first, &self.flips)
    }

    /// A string of the set.
    fn text(&self, alloc: Global) -> Result<Option<Text>, Memory>
        requires { IsCanonical (set_of self.now) }
        ensures { IfOk result (FindsText (has_text (set_of self.now))) }
    {
        if self.rest {
            return Ok(Some(text_outside(alloc, &self.texts)?));
        }
        match self.texts.first() {
            Some(text) => Ok(Some(text.share())),
            None => Ok(None),
        }
    }
}

/// The int nearest to 0 that is had, where the first answer and the flips are these.
fn nearest(first: bool, flips: &[i64]) -> Option<i64>
    requires ints { Each IsInt flips.now }
    requires above { IsBelowAll int_cmp least_int flips.now }
    requires rise { Rises int_cmp flips.now }
    ensures { FindsInt (answer_for (covers true int_cmp) first flips.now) result }
{
    let (mut rest, mut low, mut inside) = (flips, i64::MIN, first);
    while let Some((flip, behind)) = rest.split_first() {
        if *flip > 0 {
            return Some(next_to_zero(low, inside, *flip));
        }
        (rest, low, inside) = (behind, *flip, !inside);
    }
    if inside {
        return Some(0);
    }
    low.checked_sub(1)
}

/// 0 where the ints from `low` up to `above` are had; else the nearer of `above` and the int before `low`.
fn next_to_zero(low: i64, inside: bool, above: i64) -> i64
    requires low { low ≤ℤ pos 0 }
    requires above { pos 0 <ℤ above }
    ensures { IsNextToZero low inside above result }
{
    if inside {
        return 0;
    }
    match low.checked_sub(1) {
        Some(below) if below + above >= 0 => below,
        _ => above,
    }
}

/// A text of letters "a" that is none of these: the shortest but for those that are among them.
fn text_outside(alloc: Global, texts: &[Text]) -> Result<Text, Memory>
    requires { Rises (slice_cmp nat_cmp) texts.now }
    ensures { IfOk result (IsLeftOut texts.now) }
{
    let mut outside = Text::new(alloc, "")?;
    for text in texts {
        if *text == outside {
            outside = longer(alloc, &outside)?;
        }
    }
    Ok(outside)
}

/// The text with one more "a".
fn longer(alloc: Global, text: &Text) -> Result<Text, Memory>
    ensures { IfOk result (λ t. t ≡ text.now ++ 97 ∷ []) }
{
    let mut letters = String::new(alloc);
    letters.push_str(text.as_str())?;
    letters.push('a')?;
    Ok(Text::from_string(alloc, letters)?)
}
