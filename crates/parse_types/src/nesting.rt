//! How deep tokens stand, in brackets and in chains.
#![tactic(auto, using(crate::proofs::NestingLemmas::counting))]

ghost use Rattle.std.specs.Prelude.{◌≡◌, ◌≤◌, ◌<◌, ◌+◌, ◌-◌, ◌^◌, length, take, IfOk, IfSome, OnOk};
ghost use Rattle.parse_types.specs.Nesting as spec;
ghost use Rattle.parse_types.specs.Nesting.{outermost, opened, closed, in_here, new_level, begun_anew, counted, counted_function, behind_brackets, highest_of, is_opening, is_closing, is_fixed, is_function, goes_on, begins_anew, ends_count, at_token, behind_token, depth_behind};
ghost use Rattle.bal_tree.specs.Spells.{kinds_of};

use bal_base::{Keyword, MOST_NESTING, Memory, Sign, Token, TokenKind};
use std::alloc::{AllocError, Global};
use std::marker::Model;

/// The index of the first token whose nesting passes [`MOST_NESTING`].
///
/// The nesting at a token is the number of open brackets and how many tokens count in each of them and outside
/// all: words of the language, and signs that open no bracket. The counts begin anew where a statement or the
/// member of a list ends, and behind brackets no lower than the highest count in them.
pub fn first_too_deep(alloc: Global, tokens: &[Token]) -> Result<Option<usize>, Memory>
    ensures first { IfOk result (λ o. o ≡ spec.first_too_deep (kinds_of tokens.now)) }
    ensures within { IfOk result (λ o. IfSome o (λ i. i < length tokens.now)) }
{
    let mut levels = Levels::outermost(alloc);
    let mut index = 0;
    let mut rest = tokens;
    while let Some((first, after)) = rest.split_first() {
        levels.come_to(&first.kind, after)?;
        if levels.nesting() > MOST_NESTING {
            return Ok(Some(index));
        }
        levels.go_on(&first.kind, after);
        index += 1;
        rest = after;
    }
    Ok(None)
}

/// The tokens before the first closing bracket that closes nothing of them.
pub fn enclosed(tokens: &[Token]) -> &[Token]
    ensures front { kinds_of result.now ≡ spec.enclosed 0 (kinds_of tokens.now) }
    ensures is_front { result.now ≡ take (length result.now) tokens.now }
    ensures no_longer { length result.now ≤ length tokens.now }
{
    &tokens[..enclosed_len(tokens)]
}

fn enclosed_len(tokens: &[Token]) -> usize
    ensures within { result ≤ length tokens.now }
    ensures front { kinds_of (take result tokens.now) ≡ spec.enclosed 0 (kinds_of tokens.now) }
{
    let mut depth = 0;
    for (i, token) in tokens.iter().enumerate() {
        match depth_behind(&token.kind, depth) {
            None => return i,
            Some(behind) => depth = behind,
        }
    }
    tokens.len()
}

/// How many brackets are open behind the token, unless it closes one that is not open here.
pub fn depth_behind(kind: &TokenKind, depth: usize) -> Option<usize>
    requires { depth < 2 ^ 64 - 1 }
    ensures behind { result ≡ depth_behind kind.now depth }
    ensures slowly { IfSome result (λ d. d ≤ depth + 1) }
{
    if is_opening(kind) {
        Some(depth + 1)
    } else if is_closing(kind) {
        depth.checked_sub(1)
    } else {
        Some(depth)
    }
}

/// One level: what stands outside all brackets, or inside one that is open.
#[derive(Clone, Copy)]
struct Level {
    /// How many tokens count in it since its count last began.
    count: u32,
    /// Whether `function` is one of these tokens.
    has_function: bool,
    /// The highest count before it last began.
    highest: u32,
}

impl Level {
    fn new() -> Level
        ensures { result ≡ new_level }
    {
        Level {
            count: 0,
            has_function: false,
            highest: 0,
        }
    }

    /// The highest count since the bracket opened.
    fn highest(self) -> u32
        ensures { result ≡ highest_of self }
    {
        self.count.max(self.highest)
    }

    /// The level where its count begins anew.
    fn begun_anew(self) -> Level
        ensures { result ≡ begun_anew self }
    {
        Level {
            count: 0,
            has_function: false,
            highest: self.highest(),
        }
    }

    /// The level behind brackets in which this one was.
    fn behind_brackets(self, inside: Level) -> Level
        requires { self.count ≤ MOST_NESTING }
        ensures { result ≡ behind_brackets inside self }
    {
        Level {
            count: (self.count + 1).max(inside.highest()),
            ..self
        }
    }
}

/// The open levels: the outermost one, and one for each open bracket.
#[derive(Drop)]
struct Levels {
    /// The innermost level.
    here: Level,
    /// The levels around it, outermost first.
    around: Vec<Level>,
    /// The open brackets and all counts.
    nesting: usize,
}

impl Model for Levels {
    ghost use Rattle.std.specs.Prelude.{◌≡◌, reverse};
    ghost use Rattle.parse_types.specs.Nesting as spec;

    ghost Value = { spec.Levels };

    ghost view = { λ l. record { here = l.here; around = reverse l.around.items } };

    ghost invariant = { λ l. l.nesting ≡ spec.nesting record { here = l.here; around = reverse l.around.items } };
}

impl Levels {
    fn outermost(alloc: Global) -> Levels
        ensures { result ≡ outermost }
    {
        Levels {
            here: Level::new(),
            around: Vec::new(alloc),
            nesting: 0,
        }
    }

    fn nesting(&self) -> usize
        ensures { result ≡ spec.nesting self.now }
    {
        self.nesting
    }

    /// To a token, with what it opens, closes and adds.
    fn come_to(&mut self, kind: &TokenKind, rest: &[Token]) -> Result<(), AllocError>
        requires { spec.nesting self.old ≤ MOST_NESTING }
        ensures { OnOk result (self.new ≡ at_token kind.now (kinds_of rest.now) self.old) }
    {
        if is_opening(kind) {
            self.open()?;
        } else if is_closing(kind) {
            self.close();
        } else if begins_anew(kind, rest, self.here) {
            self.anew();
            self.one_more();
        } else if is_function(kind) {
            self.one_function_more();
        } else if is_fixed(kind) {
            self.one_more();
        }
        Ok(())
    }

    /// From a token to the next.
    fn go_on(&mut self, kind: &TokenKind, rest: &[Token])
        ensures { self.new ≡ behind_token kind.now (kinds_of rest.now) self.old }
    {
        if ends_count(kind, rest) {
            self.anew();
        }
    }

    fn open(&mut self) -> Result<(), AllocError>
        requires { spec.nesting self.old ≤ MOST_NESTING }
        ensures { OnOk result (self.new ≡ opened self.old) }
    {
        self.around.push(self.here)?;
        self.here = Level::new();
        self.nesting += 1;
        Ok(())
    }

    fn close(&mut self)
        requires { spec.nesting self.old ≤ MOST_NESTING }
        ensures { self.new ≡ closed self.old }
    {
        match self.around.pop() {
            None => self.one_more(),
            Some(level) => {
                let inside = self.here;
                self.nesting -= inside.count as usize + level.count as usize + 1;
                self.here = level.behind_brackets(inside);
                self.nesting += self.here.count as usize;
            }
        }
    }

    fn one_more(&mut self)
        requires { spec.nesting self.old ≤ MOST_NESTING }
        ensures { self.new ≡ in_here counted self.old }
    {
        self.here.count += 1;
        self.nesting += 1;
    }

    fn one_function_more(&mut self)
        requires { spec.nesting self.old ≤ MOST_NESTING }
        ensures { self.new ≡ in_here counted_function self.old }
    {
        self.here.has_function = true;
        self.one_more();
    }

    fn anew(&mut self)
        ensures begins { self.new ≡ in_here begun_anew self.old }
        ensures no_deeper { spec.nesting self.new ≤ spec.nesting self.old }
    {
        self.nesting -= self.here.count as usize;
        self.here = self.here.begun_anew();
    }
}

fn is_opening(kind: &TokenKind) -> bool
    ensures { result ≡ is_opening kind.now }
{
    matches!(
        kind,
        TokenKind::Sign(Sign::OpenParen | Sign::OpenBracket | Sign::OpenBrace | Sign::OpenBraceBar)
    )
}

fn is_closing(kind: &TokenKind) -> bool
    ensures { result ≡ is_closing kind.now }
{
    matches!(
        kind,
        TokenKind::Sign(
            Sign::CloseParen | Sign::CloseBracket | Sign::CloseBrace | Sign::CloseBraceBar
        )
    )
}

fn is_fixed(kind: &TokenKind) -> bool
    ensures { result ≡ is_fixed kind.now }
{
    matches!(kind, TokenKind::Keyword(_) | TokenKind::Sign(_))
}

fn is_function(kind: &TokenKind) -> bool
    ensures { result ≡ is_function kind.now }
{
    matches!(kind, TokenKind::Keyword(Keyword::Function))
}

fn goes_on(kind: &TokenKind) -> bool
    ensures { result ≡ goes_on kind.now }
{
    matches!(
        kind,
        TokenKind::Keyword(Keyword::Else | Keyword::Is) | TokenKind::Sign(_)
    )
}

/// Whether the count of the level begins anew at the token.
fn begins_anew(kind: &TokenKind, rest: &[Token], level: Level) -> bool
    ensures { result ≡ begins_anew kind.now (kinds_of rest.now) level }
{
    match (kind, rest.first()) {
        (TokenKind::Sign(Sign::FatArrow), Some(next)) => {
            matches!(next.kind, TokenKind::Sign(Sign::OpenBrace)) && !level.has_function
        }
        _ => false,
    }
}

/// Whether the count begins anew behind the token.
fn ends_count(kind: &TokenKind, rest: &[Token]) -> bool
    ensures { result ≡ ends_count kind.now (kinds_of rest.now) }
{
    match (kind, rest.first()) {
        (TokenKind::Sign(Sign::Semicolon | Sign::Comma), _) => true,
        (TokenKind::Sign(Sign::CloseBrace), Some(next)) => !goes_on(&next.kind),
        _ => false,
    }
}
