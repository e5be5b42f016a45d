//! Looking ahead: the signs outside brackets that tell statements apart which begin alike.
#![tactic(auto)]

ghost use Rattle.std.specs.Prelude.{◌≡◌, true, option_map};
ghost use Rattle.bal_tree.specs.Spells.{kinds_of};
ghost use Rattle.parse_stmt.specs.Ahead as spec;

use bal_base::{Sign, Token, TokenKind};
use parse_types::{after_sign, depth_behind};

/// What comes first of the signs that tell statements apart.
#[derive(Clone, Copy)]
pub(crate) enum Mark {
    /// `=` behind a type and a word.
    Declares,
    /// `=` behind what is assigned to, or an operator with it.
    Assigns,
    /// `->`
    Sends,
    /// `->>`
    SendsSync,
    /// None of these before the semicolon.
    Nothing,
}

/// What follows the first semicolon outside brackets, before a bracket that closes nothing of these tokens.
pub(crate) fn semicolon(tokens: &[Token]) -> Option<&[Token]>
    ensures { option_map (λ r. kinds_of r.now) result ≡ spec.semicolon 0 (kinds_of tokens.now) }
{
    let mut depth = 0;
    let mut rest = tokens;
    while let Some((first, after)) = rest.split_first() {
        if is_semicolon(&first.kind) && depth == 0 {
            return Some(after);
        }
        let Some(behind) = depth_behind(&first.kind, depth) else {
            return None;
        };
        depth = behind;
        rest = after;
    }
    None
}

fn is_semicolon(kind: &TokenKind) -> bool
    ensures { result ≡ spec.is_semicolon kind.now }
{
    matches!(kind, TokenKind::Sign(Sign::Semicolon))
}

/// The first mark outside brackets.
pub(crate) fn first_mark(tokens: &[Token]) -> Mark
    ensures { result ≡ spec.first_mark true 0 (kinds_of tokens.now) }
{
    let mut depth = 0;
    let mut joined = true;
    let mut rest = tokens;
    while let Some((first, after)) = rest.split_first() {
        if let Some(found) = mark_at(depth, joined, &first.kind, after) {
            return found;
        }
        let Some(behind) = depth_behind(&first.kind, depth) else {
            return Mark::Nothing;
        };
        depth = behind;
        joined = joins(&first.kind);
        rest = after;
    }
    Mark::Nothing
}

/// The mark that the token is, where so many brackets are open; `joined` says whether the sign before it joins a word to what stands
/// before that, or nothing stands there.
fn mark_at(depth: usize, joined: bool, kind: &TokenKind, rest: &[Token]) -> Option<Mark>
    ensures { result ≡ spec.mark_at depth joined kind.now (kinds_of rest.now) }
{
    if depth > 0 {
        return None;
    }
    match kind {
        TokenKind::Word(_) => word_mark(joined, after_sign(rest, Sign::Equal).is_some()),
        TokenKind::Sign(s) => mark_of(*s),
        _ => None,
    }
}

fn word_mark(joined: bool, before_equal: bool) -> Option<Mark>
    ensures { result ≡ spec.word_mark joined before_equal }
{
    match (joined, before_equal) {
        (_, false) => None,
        (true, true) => Some(Mark::Assigns),
        (false, true) => Some(Mark::Declares),
    }
}

fn mark_of(s: Sign) -> Option<Mark>
    ensures { result ≡ spec.mark_of s }
{
    match s {
        Sign::Semicolon => Some(Mark::Nothing),
        Sign::Equal | Sign::PlusEqual | Sign::MinusEqual => Some(Mark::Assigns),
        Sign::StarEqual | Sign::SlashEqual => Some(Mark::Assigns),
        Sign::Arrow => Some(Mark::Sends),
        Sign::DoubleArrow => Some(Mark::SendsSync),
        _ => None,
    }
}

/// Whether the token joins a word behind it to what stands before it.
fn joins(kind: &TokenKind) -> bool
    ensures { result ≡ spec.joins kind.now }
{
    matches!(kind, TokenKind::Sign(Sign::Dot | Sign::Colon))
}
