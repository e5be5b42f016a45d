//! Names: identifiers joined by dots.
ghost use Rattle.std.specs.Prelude.{◌≡◌, [], IfOk, chars};
ghost use Rattle.manifests.specs.Names.{is_dotted_name};
ghost use Rattle.manifests.specs.inner.Parts.{part_behind, part_begun, part_gone_on, rest_is};

use bal_base::Memory;
use std::alloc::Global;
use unicode_ident::{is_xid_continue, is_xid_start};

/// Where in a dotted name a place is.
#[derive(Clone, Copy)]
pub(crate) enum Part {
    /// An identifier has to begin.
    Begins,
    /// Behind an underscore with which an identifier begins.
    Underscore,
    /// Within an identifier, which may end.
    Inside,
    /// The text is no dotted name.
    Broken,
}

/// Whether a text is one or more identifiers joined by dots.
pub(crate) fn is_name(alloc: Global, text: &str) -> Result<bool, Memory>
    ensures { IfOk result (λ r. r ≡ is_dotted_name (chars text.now)) }
{
    let all = characters(alloc, text)?;
    Ok(is_dotted(all.as_slice()))
}

fn characters(alloc: Global, text: &str) -> Result<Vec<char>, Memory>
    ensures { IfOk result (λ all. all.items ≡ chars text.now) }
{
    Ok(text.chars().collect(alloc)?)
}

fn is_dotted(text: &[char]) -> bool
    ensures { result ≡ is_dotted_name text.now }
{
    let mut part = Part::Begins;
    for c in text {
        part = part.behind(*c);
    }
    part.may_end()
}

impl Part {
    /// The place behind one more character.
    fn behind(self, c: char) -> Part
        ensures { result ≡ part_behind self c }
    {
        match self {
            Part::Begins => begun(c),
            Part::Underscore => gone_on(c, Part::Broken),
            Part::Inside => gone_on(c, Part::Begins),
            Part::Broken => Part::Broken,
        }
    }

    /// Whether a dotted name may end here.
    fn may_end(self) -> bool
        ensures { result ≡ rest_is self [] }
    {
        match self {
            Part::Begins => false,
            Part::Underscore => false,
            Part::Inside => true,
            Part::Broken => false,
        }
    }
}

/// The place behind the first character of an identifier.
fn begun(c: char) -> Part
    ensures { result ≡ part_begun c }
{
    if c == '.' {
        return Part::Broken;
    }
    if c == '_' {
        return Part::Underscore;
    }
    if is_xid_start(c) {
        return Part::Inside;
    }
    Part::Broken
}

/// The place behind a further character of an identifier, or behind a dot.
fn gone_on(c: char, at_dot: Part) -> Part
    ensures { result ≡ part_gone_on c at_dot }
{
    if c == '.' {
        return at_dot;
    }
    if is_xid_continue(c) {
        return Part::Inside;
    }
    Part::Broken
}
