//! Statements and blocks. `room` is how many if statements and blocks may still stand inside one another.
#![tactic(auto, using(parse_types::proofs::Readings::spelling, bal_tree::proofs::StmtLayers::stmt_layers))]

ghost use Rattle.std.specs.Prelude.{◌≡◌, ◌≤◌, ◌&&◌, true, false, map, length, is_some, IfOk};
ghost use Rattle.std.specs.List.{list_all};
ghost use Rattle.bal_base.specs.declared.token.Sign.TheVariants.{Bar};
ghost use Rattle.bal_tree.specs.ActionRules.{has_members};
ghost use Rattle.bal_tree.specs.Pieces.{if_boxed, joined, separated, ◌&◌};
ghost use Rattle.bal_tree.specs.Spells.{Spells, kinds_of};
ghost use Rattle.bal_tree.specs.StmtPieces.{as_else, clause_pieces, else_pieces, pattern_pieces, stmt_pieces};
ghost use Rattle.bal_tree.specs.StmtRules.{clause_is_formed, else_is_formed, stmt_is_formed};
ghost use Rattle.parse_types.specs.Starts.{Leaves, Reading};
ghost use Rattle.parse_stmt.specs.Chosen.{AreChosen, led_in_block, led_in_clause, led_in_clauses, led_in_else, led_in_else_if, led_in_if, led_in_stmts};
ghost use Rattle.parse_stmt.specs.Reaches as spec;
ghost use Rattle.parse_stmt.specs.Starts.{BlockReading, ClauseReading, IfReading, IsChosenWithin, StmtReading, else_is_formed_if};

use crate::ahead::semicolon;
use crate::patterns::patterns;
use crate::reader::StmtReader;
use bal_base::{Keyword, Memory, Sign, Stop, Token, TokenKind};
use bal_tree::{Block, Clause, Else, IfStmt, Stmt};
use parse_expr::longest_expr;
use parse_types::{Missing, after_key, after_sign, key, optional, place, sign};

impl StmtReader {
    /// A block inside another one, or in an if statement.
    #[cycle(stmts)]
    pub(crate) fn inner_block(
        self,
        room: usize,
        tokens: &[Token],
    ) -> Result<(Block, &[Token]), Stop<Missing>>
        ensures end { Leaves (spec.inside room false (kinds_of tokens.now)) result }
        ensures reads { IfOk result (λ r. BlockReading r.0 self.file tokens.now r.1.now) }
        ensures chosen { IfOk result (λ r. AreChosen (led_in_block r.0)) }
    {
        if room == 0 {
            return Err(Stop::Fault(Missing));
        }
        self.block(room - 1, tokens)
    }

    /// An if statement behind `else`.
    #[cycle(stmts)]
    fn inner_if(self, room: usize, tokens: &[Token]) -> Result<(IfStmt, &[Token]), Stop<Missing>>
        ensures end { Leaves (spec.inside room true (kinds_of tokens.now)) result }
        ensures reads { IfOk result (λ r. IfReading r.0 self.file tokens.now r.1.now) }
        ensures chosen { IfOk result (λ r. AreChosen (led_in_if r.0)) }
    {
        if room == 0 {
            return Err(Stop::Fault(Missing));
        }
        self.if_stmt(room - 1, tokens)
    }

    /// `{ .. }`
    #[cycle(stmts)]
    fn block(self, room: usize, tokens: &[Token]) -> Result<(Block, &[Token]), Stop<Missing>>
        ensures end { Leaves (spec.block (spec.inside room) (kinds_of tokens.now)) result }
        ensures reads { IfOk result (λ r. BlockReading r.0 self.file tokens.now r.1.now) }
        ensures chosen { IfOk result (λ r. AreChosen (led_in_block r.0)) }
    {
        let at = place(self.file, tokens);
        let inside = sign(tokens, Sign::OpenBrace)?;
        let (stmts, behind) = self.stmts(room, inside)?;
        let close = place(self.file, behind);
        let rest = sign(behind, Sign::CloseBrace)?;
        Ok((Block::new(stmts, close, at), rest))
    }

    /// None or more statements.
    #[cycle(stmts)]
    pub(crate) fn stmts(
        self,
        room: usize,
        tokens: &[Token],
    ) -> Result<(Vec<Stmt>, &[Token]), Memory>
        ensures end { IfOk result (λ r. kinds_of r.1.now ≡ spec.stmts (spec.inside room) (kinds_of tokens.now)) }
        ensures formed { IfOk result (λ r. list_all stmt_is_formed r.0.items ≡ true) }
        ensures spells { IfOk result (λ r. Spells self.file (joined (map stmt_pieces r.0.items)) tokens.now r.1.now) }
        ensures no_longer { IfOk result (λ r. length r.1.now ≤ length tokens.now) }
        ensures chosen { IfOk result (λ r. AreChosen (led_in_stmts r.0.items)) }
    {
        let mut stmts = Vec::new(self.alloc);
        let mut rest = tokens;
        while let Some((s, after)) = optional(self.stmt(room, rest))? {
            stmts.push(s)?;
            rest = after;
        }
        Ok((stmts, rest))
    }

    /// A statement.
    #[cycle(stmts)]
    pub(crate) fn stmt(
        self,
        room: usize,
        tokens: &[Token],
    ) -> Result<(Stmt, &[Token]), Stop<Missing>>
        ensures end { Leaves (spec.stmt (spec.inside room) (kinds_of tokens.now)) result }
        ensures reads { IfOk result (λ r. StmtReading r.0 self.file tokens.now r.1.now) }
        ensures chosen { IfOk result (λ r. IsChosenWithin r.0) }
    {
        let Some((first, rest)) = tokens.split_first() else {
            return Err(Stop::Fault(Missing));
        };
        match &first.kind {
            TokenKind::Keyword(k) => self.keyword_stmt(room, *k, tokens),
            TokenKind::Sign(Sign::OpenBrace) => {
                let mapping = self.begins_mapping(rest)?;
                self.brace_stmt(room, mapping, tokens)
            }
            TokenKind::Sign(Sign::Underscore) => self.ignore(tokens),
            _ => self.led(tokens),
        }
    }

    /// A statement that begins with `{`: one that begins with a mapping, if one may stand here and does, or else a block.
    #[cycle(stmts)]
    fn brace_stmt(
        self,
        room: usize,
        mapping: bool,
        tokens: &[Token],
    ) -> Result<(Stmt, &[Token]), Stop<Missing>>
        ensures end { Leaves (spec.brace_stmt (spec.inside room) mapping (kinds_of tokens.now)) result }
        ensures reads { IfOk result (λ r. StmtReading r.0 self.file tokens.now r.1.now) }
        ensures chosen { IfOk result (λ r. IsChosenWithin r.0) }
    {
        if mapping {
            if let Some(found) = optional(self.led(tokens))? {
                return Ok(found);
            }
        }
        let (block, rest) = self.inner_block(room, tokens)?;
        Ok((Stmt::Block(block), rest))
    }

    /// A statement whose first token is this word of the language.
    #[cycle(stmts)]
    fn keyword_stmt(
        self,
        room: usize,
        k: Keyword,
        tokens: &[Token],
    ) -> Result<(Stmt, &[Token]), Stop<Missing>>
        ensures end { Leaves (spec.keyword_stmt (spec.inside room) k (kinds_of tokens.now)) result }
        ensures reads { IfOk result (λ r. StmtReading r.0 self.file tokens.now r.1.now) }
        ensures chosen { IfOk result (λ r. IsChosenWithin r.0) }
    {
        match k {
            Keyword::If => {
                let (s, rest) = self.if_stmt(room, tokens)?;
                Ok((Stmt::If(s), rest))
            }
            Keyword::While => self.while_stmt(room, tokens),
            Keyword::Foreach => self.foreach(room, tokens),
            Keyword::Match => self.match_stmt(room, tokens),
            Keyword::Return => self.return_stmt(tokens),
            Keyword::Panic => self.panic_stmt(tokens),
            Keyword::Break => self.break_stmt(tokens),
            Keyword::Continue => self.continue_stmt(tokens),
            Keyword::Final => self.final_stmt(tokens),
            Keyword::Var => self.declared(tokens),
            _ => self.led(tokens),
        }
    }

    /// `if c { .. } else { .. }`
    #[cycle(stmts)]
    fn if_stmt(self, room: usize, tokens: &[Token]) -> Result<(IfStmt, &[Token]), Stop<Missing>>
        ensures end { Leaves (spec.if_stmt (spec.inside room) (kinds_of tokens.now)) result }
        ensures reads { IfOk result (λ r. IfReading r.0 self.file tokens.now r.1.now) }
        ensures chosen { IfOk result (λ r. AreChosen (led_in_if r.0)) }
    {
        let at = place(self.file, tokens);
        let rest = key(tokens, Keyword::If)?;
        let (condition, rest) = longest_expr(self.alloc, self.file, rest)?;
        let (then, rest) = self.inner_block(room, rest)?;
        let (otherwise, rest) = self.else_if_there(room, rest)?;
        Ok((IfStmt::new(condition, then, otherwise, at), rest))
    }

    /// `else` and what stands behind it, if both are there.
    #[cycle(stmts)]
    fn else_if_there(
        self,
        room: usize,
        tokens: &[Token],
    ) -> Result<(Option<Box<Else>>, &[Token]), Stop<Missing>>
        ensures end { Leaves (spec.else_if_there (spec.inside room) (kinds_of tokens.now)) result }
        ensures formed { IfOk result (λ r. else_is_formed_if r.0 ≡ true) }
        ensures spells { IfOk result (λ r. Spells self.file (if_boxed (λ e. as_else (else_pieces e)) r.0) tokens.now r.1.now) }
        ensures no_longer { IfOk result (λ r. length r.1.now ≤ length tokens.now) }
        ensures chosen { IfOk result (λ r. AreChosen (led_in_else_if r.0)) }
    {
        let Some(behind) = after_key(tokens, Keyword::Else) else {
            return Ok((None, tokens));
        };
        match optional(self.else_behind(room, behind))? {
            Some((e, rest)) => Ok((Some(e), rest)),
            None => Ok((None, tokens)),
        }
    }

    /// What stands behind `else`.
    #[cycle(stmts)]
    fn else_behind(
        self,
        room: usize,
        tokens: &[Token],
    ) -> Result<(Box<Else>, &[Token]), Stop<Missing>>
        ensures end { Leaves (spec.else_behind (spec.inside room) (kinds_of tokens.now)) result }
        ensures reads { IfOk result (λ r. Reading (else_is_formed r.0.value) (else_pieces r.0.value) self.file tokens.now r.1.now) }
        ensures chosen { IfOk result (λ r. AreChosen (led_in_else r.0.value)) }
    {
        if after_key(tokens, Keyword::If).is_some() {
            let (s, rest) = self.inner_if(room, tokens)?;
            return Ok((Box::new(self.alloc, Else::If(s))?, rest));
        }
        let (b, rest) = self.inner_block(room, tokens)?;
        Ok((Box::new(self.alloc, Else::Block(b))?, rest))
    }

    /// `while c { .. }`
    #[cycle(stmts)]
    fn while_stmt(self, room: usize, tokens: &[Token]) -> Result<(Stmt, &[Token]), Stop<Missing>>
        ensures end { Leaves (spec.while_stmt (spec.inside room) (kinds_of tokens.now)) result }
        ensures reads { IfOk result (λ r. StmtReading r.0 self.file tokens.now r.1.now) }
        ensures chosen { IfOk result (λ r. IsChosenWithin r.0) }
    {
        let at = place(self.file, tokens);
        let rest = key(tokens, Keyword::While)?;
        let (condition, rest) = longest_expr(self.alloc, self.file, rest)?;
        let (body, rest) = self.inner_block(room, rest)?;
        Ok((
            Stmt::While {
                condition,
                body,
                at,
            },
            rest,
        ))
    }

    /// `foreach T a in e { .. }`
    #[cycle(stmts)]
    fn foreach(self, room: usize, tokens: &[Token]) -> Result<(Stmt, &[Token]), Stop<Missing>>
        ensures end { Leaves (spec.foreach (spec.inside room) (kinds_of tokens.now)) result }
        ensures reads { IfOk result (λ r. StmtReading r.0 self.file tokens.now r.1.now) }
        ensures chosen { IfOk result (λ r. IsChosenWithin r.0) }
    {
        let at = place(self.file, tokens);
        let ((ty, name, from, range), rest) = self.foreach_head(tokens)?;
        let (body, rest) = self.inner_block(room, rest)?;
        Ok((
            Stmt::Foreach {
                ty,
                name,
                from,
                range,
                body,
                at,
            },
            rest,
        ))
    }

    /// `match e { 1 => { .. } }`
    #[cycle(stmts)]
    fn match_stmt(self, room: usize, tokens: &[Token]) -> Result<(Stmt, &[Token]), Stop<Missing>>
        ensures end { Leaves (spec.match_stmt (spec.inside room) (kinds_of tokens.now)) result }
        ensures reads { IfOk result (λ r. StmtReading r.0 self.file tokens.now r.1.now) }
        ensures chosen { IfOk result (λ r. IsChosenWithin r.0) }
    {
        let at = place(self.file, tokens);
        let rest = key(tokens, Keyword::Match)?;
        let (value, rest) = longest_expr(self.alloc, self.file, rest)?;
        let inside = sign(rest, Sign::OpenBrace)?;
        let (clauses, rest) = self.clauses(room, inside)?;
        let rest = sign(rest, Sign::CloseBrace)?;
        Ok((Stmt::Match { value, clauses, at }, rest))
    }

    /// One or more clauses.
    #[cycle(stmts)]
    fn clauses(
        self,
        room: usize,
        tokens: &[Token],
    ) -> Result<(Vec<Clause>, &[Token]), Stop<Missing>>
        ensures end { Leaves (spec.clauses (spec.inside room) (kinds_of tokens.now)) result }
        ensures reads { IfOk result (λ r. Reading (has_members r.0.items && list_all clause_is_formed r.0.items) (joined (map clause_pieces r.0.items)) self.file tokens.now r.1.now) }
        ensures chosen { IfOk result (λ r. AreChosen (led_in_clauses r.0.items)) }
    {
        let mut clauses = Vec::new(self.alloc);
        let (first, mut rest) = self.clause(room, tokens)?;
        clauses.push(first)?;
        while let Some((next, after)) = optional(self.clause(room, rest))? {
            clauses.push(next)?;
            rest = after;
        }
        Ok((clauses, rest))
    }

    /// `1|2 => { .. }`
    #[cycle(stmts)]
    fn clause(self, room: usize, tokens: &[Token]) -> Result<(Clause, &[Token]), Stop<Missing>>
        ensures end { Leaves (spec.clause (spec.inside room) (kinds_of tokens.now)) result }
        ensures reads { IfOk result (λ r. ClauseReading r.0 self.file tokens.now r.1.now) }
        ensures chosen { IfOk result (λ r. AreChosen (led_in_clause r.0)) }
    {
        let at = place(self.file, tokens);
        let (patterns, rest) = patterns(self.alloc, self.file, tokens)?;
        let rest = sign(rest, Sign::FatArrow)?;
        let (body, rest) = self.inner_block(room, rest)?;
        Ok((Clause::new(patterns, body, at), rest))
    }

    /// Whether a statement that begins with `{` begins with a mapping: these tokens stand behind the brace.
    fn begins_mapping(self, tokens: &[Token]) -> Result<bool, Memory>
        ensures { IfOk result (λ b. b ≡ spec.begins_mapping (kinds_of tokens.now)) }
    {
        if !may_be_mapping(tokens) {
            return Ok(false);
        }
        let Some(behind) = after_sign(tokens, Sign::CloseBrace) else {
            return Ok(true);
        };
        match optional(self.led(behind))? {
            Some(_) => Ok(false),
            None => Ok(true),
        }
    }
}

/// Whether a mapping may begin with the brace before these tokens.
fn may_be_mapping(tokens: &[Token]) -> bool
    ensures { result ≡ spec.may_be_mapping (kinds_of tokens.now) }
{
    let Some((first, rest)) = tokens.split_first() else {
        return false;
    };
    match &first.kind {
        TokenKind::Word(_) | TokenKind::Str(_) => semicolon(rest).is_none(),
        TokenKind::Sign(Sign::OpenBracket) => semicolon(tokens).is_none(),
        TokenKind::Sign(Sign::CloseBrace) => goes_on(rest),
        _ => false,
    }
}

/// Whether what stands here goes on with an expression before it, and begins no statement with blocks in it.
fn goes_on(tokens: &[Token]) -> bool
    ensures { result ≡ spec.goes_on (kinds_of tokens.now) }
{
    let Some((first, _)) = tokens.split_first() else {
        return false;
    };
    match &first.kind {
        TokenKind::Keyword(k) => *k == Keyword::Is,
        TokenKind::Sign(Sign::OpenBrace | Sign::CloseBrace | Sign::Underscore) => false,
        TokenKind::Sign(_) => true,
        _ => false,
    }
}
