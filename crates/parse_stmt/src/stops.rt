//! Where a function that cannot be read goes wrong.
#![tactic(auto, using(parse_types::proofs::Readings::spelling))]

ghost use Rattle.std.specs.Prelude.{◌≡◌, ◌<◌, true, length, is_some, IfOk};
ghost use Rattle.bal_base.specs.declared.token.Keyword.TheVariants.{If as IfKey};
ghost use Rattle.bal_tree.specs.Spells.{kinds_of};
ghost use Rattle.parse_types.specs.Starts.{Leaves};
ghost use Rattle.token_steps.specs.Tokens.{take_key};
ghost use Rattle.parse_stmt.specs.Reaches as spec;
ghost use Rattle.parse_stmt.specs.Starts.{FrontReading, IsStop, WholeOr, ends_stmts as stmts_end, no_stmt};
ghost use Rattle.parse_stmt.specs.inner.Stops.{IsBehindBraces, IsBehindStmt, IsLastElse, IsLastStop, IsNextElse, IsRead, IsStopWithin, ThenReading};
ghost use Rattle.bal_base.specs.declared.stop.Stop.TheVariants.{Fault as FaultOf};

use crate::names::{key_if_there, word_here};
use crate::reader::StmtReader;
use bal_base::{Fault, FaultCode, Kept, Keyword, Memory, Place, Sign, Stop, Token, TokenKind};
use bal_tree::{Block, Expr, FileTree, Params, TypeTree, Word};
use parse_expr::{longest_expr, params};
use parse_types::{Missing, after_key, after_sign, key, optional, place, refused, sign};

/// What stands before the body of a function.
#[derive(Drop)]
pub(crate) struct Signature {
    /// Whether `public` stands in front.
    pub(crate) public: bool,
    /// Whether `isolated` stands before `function`.
    pub(crate) isolated: bool,
    /// Its name.
    pub(crate) name: Word,
    /// Its parameters.
    pub(crate) params: Params,
    /// Its result, if one is stated.
    pub(crate) result: Option<Box<TypeTree>>,
}

impl StmtReader {
    /// The tree, where nothing is left behind it; else the fault of what is left.
    pub(crate) fn whole(self, tree: FileTree, rest: &[Token]) -> Result<FileTree, Stop<Fault>>
        ensures { WholeOr tree self.file rest.now result }
    {
        if rest.is_empty() {
            return Ok(tree);
        }
        match self.stop_in_body(rest)? {
            Some(stop) => Err(not_a_statement(place(self.file, stop))),
            None => Err(refused(FaultCode::Syntax, place(self.file, rest))),
        }
    }

    /// The last place in the body of the function that begins here at which a statement is wanting.
    fn stop_in_body(self, tokens: &[Token]) -> Result<Option<&[Token]>, Memory>
        ensures { IfOk result (λ stop. IsStop self.file tokens.now stop) }
    {
        let Some((_signature, inside)) = optional(self.body_front(tokens))? else {
            return Ok(None);
        };
        self.last_stop(tokens.len(), inside)
    }

    /// The same behind the brace.
    fn last_stop(self, room: usize, tokens: &[Token]) -> Result<Option<&[Token]>, Memory>
        requires { length tokens.now < room }
        ensures { IfOk result (λ stop. IsLastStop self.file tokens.now stop) }
    {
        let mut stop = None;
        let mut rest = tokens;
        while let Some(after) = self.behind_stmt(room, rest)? {
            let inner = self.stop_within(room, rest, after)?;
            stop = inner.or(stop);
            rest = after;
        }
        if ends_stmts(rest) {
            return Ok(stop);
        }
        Ok(Some(rest))
    }

    /// What stands behind the statement that begins here, where one does.
    fn behind_stmt(self, room: usize, tokens: &[Token]) -> Result<Option<&[Token]>, Memory>
        ensures { IfOk result (λ rest. IsBehindStmt room self.file tokens.now rest) }
    {
        match optional(self.stmt(room, tokens))? {
            Some((_stmt, rest)) => Ok(Some(rest)),
            None => Ok(None),
        }
    }

    /// The last place before `after`, which stands behind the statement that begins here, at which another one is wanting: a shorter
    /// statement ends there, and none begins.
    fn stop_within<'a>(
        self,
        room: usize,
        tokens: &'a [Token],
        after: &[Token],
    ) -> Result<Option<&'a [Token]>, Memory>
        requires room { length tokens.now < room }
        requires read { IsRead room self.file tokens.now after.now }
        ensures { IfOk result (λ stop. IsStopWithin self.file tokens.now after.now stop) }
    {
        if after_key(tokens, Keyword::If).is_some() {
            return self.last_else(room, tokens, after);
        }
        Ok(behind_braces(tokens, after))
    }

    /// The last `else` of the if statement that begins here, up to `after`, which stands behind it.
    fn last_else<'a>(
        self,
        room: usize,
        tokens: &'a [Token],
        after: &[Token],
    ) -> Result<Option<&'a [Token]>, Memory>
        requires room { length tokens.now < room }
        requires read { IsRead room self.file tokens.now after.now }
        requires first { is_some (take_key IfKey (kinds_of tokens.now)) ≡ true }
        ensures { IfOk result (λ last. IsLastElse self.file tokens.now after.now last) }
    {
        let mut last = None;
        let mut rest = tokens;
        while let Some((at, behind)) = self.next_else(room, rest, after)? {
            last = Some(at);
            rest = behind;
        }
        Ok(last)
    }

    /// The `else` behind the first block of the if statement that begins here, and what stands behind that word, where it is there before
    /// `after`.
    fn next_else<'a>(
        self,
        room: usize,
        tokens: &'a [Token],
        after: &[Token],
    ) -> Result<Option<(&'a [Token], &'a [Token])>, Memory>
        ensures { IfOk result (λ found. IsNextElse room self.file tokens.now after.now found) }
    {
        let Some((_then, at)) = optional(self.then_part(room, tokens))? else {
            return Ok(None);
        };
        if at.len() <= after.len() {
            return Ok(None);
        }
        let Some(behind) = after_key(at, Keyword::Else) else {
            return Ok(None);
        };
        Ok(Some((at, behind)))
    }

    /// An if statement up to the end of its first block.
    fn then_part(
        self,
        room: usize,
        tokens: &[Token],
    ) -> Result<((Box<Expr>, Block), &[Token]), Stop<Missing>>
        ensures end { Leaves (spec.then_part (spec.inside room) (kinds_of tokens.now)) result }
        ensures reads { IfOk result (λ r. ThenReading r.0.0 r.0.1 self.file tokens.now r.1.now) }
    {
        let rest = key(tokens, Keyword::If)?;
        let (condition, rest) = longest_expr(self.alloc, self.file, rest)?;
        let (then, rest) = self.inner_block(room, rest)?;
        Ok(((condition, then), rest))
    }

    /// The signature of a function, up to the brace that opens its body.
    fn body_front(self, tokens: &[Token]) -> Result<(Signature, &[Token]), Stop<Missing>>
        ensures end { Leaves (spec.body_front (kinds_of tokens.now)) result }
        ensures reads { IfOk result (λ r. FrontReading r.0 self.file tokens.now r.1.now) }
    {
        let (public, rest) = key_if_there(tokens, Keyword::Public);
        let (isolated, rest) = key_if_there(rest, Keyword::Isolated);
        let rest = key(rest, Keyword::Function)?;
        let (name, rest) = word_here(self.file, rest)?;
        let (params, rest) = params(self.alloc, self.file, rest)?;
        let (result, rest) = self.result_if_there(rest)?;
        let rest = sign(rest, Sign::OpenBrace)?;
        Ok((
            Signature {
                public,
                isolated,
                name,
                params,
                result,
            },
            rest,
        ))
    }
}

/// What stands behind empty braces, where these begin the tokens and end before `after`.
fn behind_braces<'a>(tokens: &'a [Token], after: &[Token]) -> Option<&'a [Token]>
    ensures { IsBehindBraces tokens.now after.now result }
{
    let inside = after_sign(tokens, Sign::OpenBrace)?;
    let rest = after_sign(inside, Sign::CloseBrace)?;
    if rest.len() <= after.len() {
        return None;
    }
    Some(rest)
}

/// Whether nothing, a closing brace or a worker stands here, as may be behind statements.
fn ends_stmts(tokens: &[Token]) -> bool
    ensures { result ≡ stmts_end (kinds_of tokens.now) }
{
    let Some((first, _)) = tokens.split_first() else {
        return true;
    };
    match &first.kind {
        TokenKind::Sign(s) => *s == Sign::CloseBrace,
        TokenKind::Keyword(k) => *k == Keyword::Worker,
        _ => false,
    }
}

/// The refusal of what is no statement.
fn not_a_statement(at: Place) -> Stop<Fault>
    ensures { result ≡ FaultOf (no_stmt at) }
{
    Stop::Fault(Fault {
        code: FaultCode::Syntax,
        at: Some(at),
        kept: Kept::Count(1),
    })
}
