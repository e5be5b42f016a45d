//! Actions, and what may stand at the right of an assignment.
#![tactic(auto, using(parse_types::proofs::Readings::spelling, bal_tree::proofs::ExprLayers::expr_layers))]

ghost use Rattle.std.specs.Prelude.{◌≡◌, ◌&&◌, true, false, map, option_map, IfOk, IfSome, MatchOption};
ghost use Rattle.bal_base.specs.declared.token.Sign.TheVariants.{Bar, Comma, OpenBrace as OpenBraceSign, CloseBrace as CloseBraceSign, Semicolon};
ghost use Rattle.bal_tree.specs.ActionPieces.{action_key, action_pieces, peer_pieces, wait_member_pieces, rhs_pieces};
ghost use Rattle.bal_tree.specs.ActionRules.{action_is_formed, has_members, may_stand_before, sending, rhs_is_formed};
ghost use Rattle.bal_tree.specs.declared.action.Sending.TheVariants.{Nothing as NoSending, Sync as SyncSending};
ghost use Rattle.bal_tree.specs.ExprPieces.{call_pieces, expr_pieces, postfix_pieces};
ghost use Rattle.bal_tree.specs.ExprRules.{call_is_formed, expr_is_formed, postfix_is_formed};
ghost use Rattle.bal_tree.specs.NamePieces.{name_pieces};
ghost use Rattle.bal_tree.specs.Pieces.{starts as starts_piece, sign as sign_piece, key as key_piece, separated, ◌&◌};
ghost use Rattle.bal_tree.specs.Spells.{kinds_of};
ghost use Rattle.bal_tree.specs.StmtPieces.{ended as ended_pieces};
ghost use Rattle.parse_types.specs.Starts.{Leaves, Reading};
ghost use Rattle.parse_stmt.specs.Shapes.{last_of, postfix_last, operators};
ghost use Rattle.parse_stmt.specs.Reaches as spec;
ghost use Rattle.parse_stmt.specs.Starts.{ActionReading, RhsReading, WordedReading};

use crate::ahead::{Mark, first_mark};
use crate::names::{any_name, word_here};
use crate::reader::StmtReader;
use bal_base::{Keyword, Memory, Place, Sign, Stop, Token, TokenKind};
use bal_tree::{Action, ActionOp, Call, Expr, Peer, Postfix, QualifiedName, Rhs, WaitMember};
use parse_expr::longest_expr;
use parse_types::{Missing, after_key, after_sign, key, optional, place, sign, word};
use std::alloc::Global;

/// The worker at the other end of a message.
fn peer(file: u32, tokens: &[Token]) -> Result<(Peer, &[Token]), Stop<Missing>>
    ensures end { Leaves (spec.peer (kinds_of tokens.now)) result }
    ensures reads { IfOk result (λ r. Reading true (peer_pieces r.0) file tokens.now r.1.now) }
{
    if let Some((w, rest)) = word(file, tokens) {
        return Ok((Peer::Word(w), rest));
    }
    let at = place(file, tokens);
    let rest = key(tokens, Keyword::Function)?;
    Ok((Peer::Function { at }, rest))
}

/// The expression without operators that this one is.
pub(crate) fn postfix_of(e: Expr) -> Option<Postfix>
    ensures { MatchOption result (last_of e ≡ operators) (λ p. (last_of e ≡ postfix_last p) × (expr_pieces e ≡ postfix_pieces p) × (expr_is_formed e false ≡ true → postfix_is_formed p false ≡ true)) }
{
    match e {
        Expr::Postfix(p) => Some(p),
        _ => None,
    }
}

/// The call that the expression is.
fn call_of(p: Postfix) -> Option<Call>
    ensures { MatchOption result (spec.is_call (postfix_last p) ≡ false) (λ c. (spec.is_call (postfix_last p) ≡ true) × (call_pieces c ≡ postfix_pieces p) × (postfix_is_formed p false ≡ true → call_is_formed c false ≡ true)) }
{
    match p {
        Postfix::Call(call) => Some(call),
        _ => None,
    }
}

/// `|g`
fn bar_name(file: u32, tokens: &[Token]) -> Result<(QualifiedName, &[Token]), Stop<Missing>>
    ensures end { Leaves (spec.bar_name (kinds_of tokens.now)) result }
    ensures reads { IfOk result (λ r. Reading true (sign_piece Bar & name_pieces r.0) file tokens.now r.1.now) }
{
    let rest = sign(tokens, Sign::Bar)?;
    any_name(file, rest)
}

/// `a: f`
fn wait_member(file: u32, tokens: &[Token]) -> Result<(WaitMember, &[Token]), Stop<Missing>>
    ensures end { Leaves (spec.wait_member (kinds_of tokens.now)) result }
    ensures reads { IfOk result (λ r. Reading true (wait_member_pieces r.0) file tokens.now r.1.now) }
{
    let at = place(file, tokens);
    let (key, rest) = word_here(file, tokens)?;
    let rest = sign(rest, Sign::Colon)?;
    let (name, rest) = any_name(file, rest)?;
    Ok((WaitMember { key, name, at }, rest))
}

/// `, a: f`
fn comma_member(file: u32, tokens: &[Token]) -> Result<(WaitMember, &[Token]), Stop<Missing>>
    ensures end { Leaves (spec.comma_member (kinds_of tokens.now)) result }
    ensures reads { IfOk result (λ r. Reading true (sign_piece Comma & wait_member_pieces r.0) file tokens.now r.1.now) }
{
    let rest = sign(tokens, Sign::Comma)?;
    wait_member(file, rest)
}

/// Whether an action that is no send begins here, behind words.
pub(crate) fn begins_simple(tokens: &[Token]) -> bool
    ensures { result ≡ spec.begins_simple (kinds_of tokens.now) }
{
    let Some((first, rest)) = tokens.split_first() else {
        return false;
    };
    match &first.kind {
        TokenKind::Keyword(Keyword::Check | Keyword::CheckPanic | Keyword::Trap) => {
            begins_simple(rest)
        }
        TokenKind::Keyword(Keyword::Start | Keyword::Wait | Keyword::Flush) => true,
        TokenKind::Sign(Sign::LeftArrow) => true,
        _ => false,
    }
}

impl StmtReader {
    /// An expression that is a call.
    pub(crate) fn call(self, tokens: &[Token]) -> Result<(Call, &[Token]), Stop<Missing>>
        ensures end { Leaves (spec.call (kinds_of tokens.now)) result }
        ensures reads { IfOk result (λ r. Reading (call_is_formed r.0 false) (call_pieces r.0) self.file tokens.now r.1.now) }
    {
        let (e, rest) = longest_expr(self.alloc, self.file, tokens)?;
        let Some(p) = postfix_of(Box::into_inner(e)) else {
            return Err(Stop::Fault(Missing));
        };
        match call_of(p) {
            Some(call) => Ok((call, rest)),
            None => Err(Stop::Fault(Missing)),
        }
    }

    /// `f|g`
    fn names(self, tokens: &[Token]) -> Result<(Vec<QualifiedName>, &[Token]), Stop<Missing>>
        ensures end { Leaves (spec.names (kinds_of tokens.now)) result }
        ensures reads { IfOk result (λ r. Reading (has_members r.0.items) (separated Bar (map name_pieces r.0.items)) self.file tokens.now r.1.now) }
    {
        let mut names = Vec::new(self.alloc);
        let (first, mut rest) = any_name(self.file, tokens)?;
        names.push(first)?;
        while let Some((next, after)) = optional(bar_name(self.file, rest))? {
            names.push(next)?;
            rest = after;
        }
        Ok((names, rest))
    }

    /// `a: f, b: g`
    fn wait_members(self, tokens: &[Token]) -> Result<(Vec<WaitMember>, &[Token]), Stop<Missing>>
        ensures end { Leaves (spec.wait_members (kinds_of tokens.now)) result }
        ensures reads { IfOk result (λ r. Reading (has_members r.0.items) (separated Comma (map wait_member_pieces r.0.items)) self.file tokens.now r.1.now) }
    {
        let mut members = Vec::new(self.alloc);
        let (first, mut rest) = wait_member(self.file, tokens)?;
        members.push(first)?;
        while let Some((next, after)) = optional(comma_member(self.file, rest))? {
            members.push(next)?;
            rest = after;
        }
        Ok((members, rest))
    }

    /// `start f(a)`
    fn start(self, tokens: &[Token]) -> Result<(Action, &[Token]), Stop<Missing>>
        ensures end { Leaves (spec.start (kinds_of tokens.now)) result }
        ensures reads { IfOk result (λ r. ActionReading r.0 self.file tokens.now r.1.now) }
        ensures no_send { IfOk result (λ r. sending r.0 ≡ NoSending) }
    {
        let at = place(self.file, tokens);
        let rest = key(tokens, Keyword::Start)?;
        let (call, rest) = self.call(rest)?;
        Ok((Action::Start { call, at }, rest))
    }

    /// `wait f|g` or `wait {a: f, b: g}`
    fn wait(self, tokens: &[Token]) -> Result<(Action, &[Token]), Stop<Missing>>
        ensures end { Leaves (spec.wait (kinds_of tokens.now)) result }
        ensures reads { IfOk result (λ r. ActionReading r.0 self.file tokens.now r.1.now) }
        ensures no_send { IfOk result (λ r. sending r.0 ≡ NoSending) }
    {
        let at = place(self.file, tokens);
        let rest = key(tokens, Keyword::Wait)?;
        match after_sign(rest, Sign::OpenBrace) {
            Some(inside) => {
                let (members, rest) = self.wait_members(inside)?;
                let rest = sign(rest, Sign::CloseBrace)?;
                Ok((Action::WaitAll { members, at }, rest))
            }
            None => {
                let (names, rest) = self.names(rest)?;
                Ok((Action::WaitAny { names, at }, rest))
            }
        }
    }

    /// `flush A`
    fn flush(self, tokens: &[Token]) -> Result<(Action, &[Token]), Stop<Missing>>
        ensures end { Leaves (spec.flush (kinds_of tokens.now)) result }
        ensures reads { IfOk result (λ r. ActionReading r.0 self.file tokens.now r.1.now) }
        ensures no_send { IfOk result (λ r. sending r.0 ≡ NoSending) }
    {
        let at = place(self.file, tokens);
        let rest = key(tokens, Keyword::Flush)?;
        let (peer, rest) = peer(self.file, rest)?;
        Ok((Action::Flush { peer, at }, rest))
    }

    /// `<- A`
    fn receive(self, tokens: &[Token]) -> Result<(Action, &[Token]), Stop<Missing>>
        ensures end { Leaves (spec.receive (kinds_of tokens.now)) result }
        ensures reads { IfOk result (λ r. ActionReading r.0 self.file tokens.now r.1.now) }
        ensures no_send { IfOk result (λ r. sending r.0 ≡ NoSending) }
    {
        let at = place(self.file, tokens);
        let rest = sign(tokens, Sign::LeftArrow)?;
        let (peer, rest) = peer(self.file, rest)?;
        Ok((Action::Receive { peer, at }, rest))
    }

    /// An action that is no send.
    fn bare(self, tokens: &[Token]) -> Result<(Action, &[Token]), Stop<Missing>>
        ensures end { Leaves (spec.bare (kinds_of tokens.now)) result }
        ensures reads { IfOk result (λ r. ActionReading r.0 self.file tokens.now r.1.now) }
        ensures no_send { IfOk result (λ r. sending r.0 ≡ NoSending) }
    {
        let Some((first, _)) = tokens.split_first() else {
            return Err(Stop::Fault(Missing));
        };
        match &first.kind {
            TokenKind::Keyword(Keyword::Start) => self.start(tokens),
            TokenKind::Keyword(Keyword::Wait) => self.wait(tokens),
            TokenKind::Keyword(Keyword::Flush) => self.flush(tokens),
            TokenKind::Sign(Sign::LeftArrow) => self.receive(tokens),
            _ => Err(Stop::Fault(Missing)),
        }
    }

    /// An action that is no send, behind words.
    #[cycle(simple)]
    pub(crate) fn simple(self, tokens: &[Token]) -> Result<(Box<Action>, &[Token]), Stop<Missing>>
        ensures end { Leaves (spec.simple (kinds_of tokens.now)) result }
        ensures reads { IfOk result (λ r. ActionReading r.0.value self.file tokens.now r.1.now) }
        ensures no_send { IfOk result (λ r. sending r.0.value ≡ NoSending) }
    {
        let Some((first, rest)) = tokens.split_first() else {
            return Err(Stop::Fault(Missing));
        };
        let at = place(self.file, tokens);
        match &first.kind {
            TokenKind::Keyword(Keyword::Check) => self.worded(ActionOp::Check, at, rest),
            TokenKind::Keyword(Keyword::CheckPanic) => self.worded(ActionOp::CheckPanic, at, rest),
            TokenKind::Keyword(Keyword::Trap) => self.worded(ActionOp::Trap, at, rest),
            _ => {
                let (action, rest) = self.bare(tokens)?;
                Ok((Box::new(self.alloc, action)?, rest))
            }
        }
    }

    /// An action that is no send, behind this word at this place and others.
    #[cycle(simple)]
    fn worded(
        self,
        op: ActionOp,
        at: Place,
        tokens: &[Token],
    ) -> Result<(Box<Action>, &[Token]), Stop<Missing>>
        ensures end { Leaves (spec.simple (kinds_of tokens.now)) result }
        ensures reads { IfOk result (λ r. WordedReading op at r.0.value self.file tokens.now r.1.now) }
        ensures no_send { IfOk result (λ r. sending r.0.value ≡ NoSending) }
    {
        let (action, rest) = self.simple(tokens)?;
        Ok((prefixed(self.alloc, op, action, at)?, rest))
    }

    /// `e -> A`
    pub(crate) fn send(self, tokens: &[Token]) -> Result<(Box<Action>, &[Token]), Stop<Missing>>
        ensures end { Leaves (spec.send (kinds_of tokens.now)) result }
        ensures reads { IfOk result (λ r. ActionReading r.0.value self.file tokens.now r.1.now) }
    {
        let at = place(self.file, tokens);
        let (value, rest) = longest_expr(self.alloc, self.file, tokens)?;
        let rest = sign(rest, Sign::Arrow)?;
        let (peer, rest) = peer(self.file, rest)?;
        Ok((
            Box::new(self.alloc, Action::Send { value, peer, at })?,
            rest,
        ))
    }

    /// `e ->> A`, behind words that belong to it.
    #[cycle(sync)]
    pub(crate) fn sync_send(
        self,
        tokens: &[Token],
    ) -> Result<(Box<Action>, &[Token]), Stop<Missing>>
        ensures end { Leaves (spec.sync_send (kinds_of tokens.now)) result }
        ensures reads { IfOk result (λ r. ActionReading r.0.value self.file tokens.now r.1.now) }
        ensures sends { IfOk result (λ r. sending r.0.value ≡ SyncSending) }
    {
        let Some((first, rest)) = tokens.split_first() else {
            return self.plain_sync_send(tokens);
        };
        let at = place(self.file, tokens);
        match &first.kind {
            TokenKind::Keyword(Keyword::Check) => self.worded_sync(ActionOp::Check, at, rest),
            TokenKind::Keyword(Keyword::CheckPanic) => {
                self.worded_sync(ActionOp::CheckPanic, at, rest)
            }
            _ => self.plain_sync_send(tokens),
        }
    }

    /// The same behind this word at this place and others.
    #[cycle(sync)]
    fn worded_sync(
        self,
        op: ActionOp,
        at: Place,
        tokens: &[Token],
    ) -> Result<(Box<Action>, &[Token]), Stop<Missing>>
        requires { may_stand_before op SyncSending ≡ true }
        ensures end { Leaves (spec.sync_send (kinds_of tokens.now)) result }
        ensures reads { IfOk result (λ r. WordedReading op at r.0.value self.file tokens.now r.1.now) }
        ensures sends { IfOk result (λ r. sending r.0.value ≡ SyncSending) }
    {
        let (action, rest) = self.sync_send(tokens)?;
        Ok((prefixed(self.alloc, op, action, at)?, rest))
    }

    /// `e ->> A`, where the first token is no word of the action.
    fn plain_sync_send(self, tokens: &[Token]) -> Result<(Box<Action>, &[Token]), Stop<Missing>>
        requires { spec.begins_with_check (kinds_of tokens.now) ≡ false }
        ensures end { Leaves (spec.plain_sync_send (kinds_of tokens.now)) result }
        ensures reads { IfOk result (λ r. ActionReading r.0.value self.file tokens.now r.1.now) }
        ensures sends { IfOk result (λ r. sending r.0.value ≡ SyncSending) }
    {
        let at = place(self.file, tokens);
        let (value, rest) = longest_expr(self.alloc, self.file, tokens)?;
        let rest = sign(rest, Sign::DoubleArrow)?;
        let (peer, rest) = peer(self.file, rest)?;
        Ok((
            Box::new(self.alloc, Action::SyncSend { value, peer, at })?,
            rest,
        ))
    }

    /// What may stand at the right of an assignment.
    fn rhs(self, tokens: &[Token]) -> Result<(Rhs, &[Token]), Stop<Missing>>
        ensures end { Leaves (spec.rhs (kinds_of tokens.now)) result }
        ensures reads { IfOk result (λ r. RhsReading r.0 self.file tokens.now r.1.now) }
    {
        match first_mark(tokens) {
            Mark::Sends => {
                let (action, rest) = self.send(tokens)?;
                Ok((Rhs::Action(action), rest))
            }
            Mark::SendsSync => {
                let (action, rest) = self.sync_send(tokens)?;
                Ok((Rhs::Action(action), rest))
            }
            Mark::Declares | Mark::Assigns | Mark::Nothing => {
                if begins_simple(tokens) {
                    let (action, rest) = self.simple(tokens)?;
                    return Ok((Rhs::Action(action), rest));
                }
                let (e, rest) = longest_expr(self.alloc, self.file, tokens)?;
                Ok((Rhs::Expr(e), rest))
            }
        }
    }

    /// The same with the semicolon behind it.
    pub(crate) fn ended(self, tokens: &[Token]) -> Result<(Rhs, &[Token]), Stop<Missing>>
        ensures end { Leaves (spec.ended (kinds_of tokens.now)) result }
        ensures reads { IfOk result (λ r. Reading (rhs_is_formed r.0) (ended_pieces r.0) self.file tokens.now r.1.now) }
    {
        let (value, rest) = self.rhs(tokens)?;
        let rest = sign(rest, Sign::Semicolon)?;
        Ok((value, rest))
    }
}

/// The action behind a word at this place.
fn prefixed(
    alloc: Global,
    op: ActionOp,
    action: Box<Action>,
    at: Place,
) -> Result<Box<Action>, Memory>
    ensures pieces { IfOk result (λ a. action_pieces a.value ≡ (starts_piece at & key_piece (action_key op) & action_pieces action.value)) }
    ensures formed { may_stand_before op (sending action.value) ≡ true → action_is_formed action.value ≡ true → IfOk result (λ a. action_is_formed a.value ≡ true) }
    ensures sends { IfOk result (λ a. sending a.value ≡ sending action.value) }
{
    Ok(Box::new(alloc, Action::Prefix { op, action, at })?)
}
