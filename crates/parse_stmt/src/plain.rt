//! Statements without blocks that begin with a word of the language or `_`, and what stands before a block.
#![tactic(auto, using(parse_types::proofs::Readings::spelling, bal_tree::proofs::StmtLayers::stmt_layers))]

ghost use Rattle.std.specs.Prelude.{◌≡◌, ◌≤◌, ◌&&◌, true, false, length, IfOk};
ghost use Rattle.bal_tree.specs.ExprRules.{expr_is_formed};
ghost use Rattle.bal_tree.specs.Pieces.{if_there};
ghost use Rattle.bal_tree.specs.Spells.{Spells, kinds_of};
ghost use Rattle.bal_tree.specs.StmtPieces.{foreach_head as foreach_pieces, range_pieces};
ghost use Rattle.bal_tree.specs.StmtRules.{local_type_is_formed, range_is_formed};
ghost use Rattle.parse_types.specs.Starts.{Leaves, Reading};
ghost use Rattle.parse_stmt.specs.Reaches as spec;
ghost use Rattle.parse_stmt.specs.Starts.{IsChosenWithin, StmtReading};

use crate::names::word_here;
use crate::reader::StmtReader;
use bal_base::{Keyword, Sign, Stop, Token};
use bal_tree::{Expr, LocalType, Range, RangeOp, Stmt, Word};
use parse_expr::longest_expr;
use parse_types::{Missing, after_sign, key, place, sign};

/// The type, the name, the expression and the range of a loop over values.
type ForeachHead = (LocalType, Word, Box<Expr>, Option<Range>);

impl StmtReader {
    /// `_ = e;`
    pub(crate) fn ignore(self, tokens: &[Token]) -> Result<(Stmt, &[Token]), Stop<Missing>>
        ensures end { Leaves (spec.ignore (kinds_of tokens.now)) result }
        ensures reads { IfOk result (λ r. StmtReading r.0 self.file tokens.now r.1.now) }
        ensures chosen { IfOk result (λ r. IsChosenWithin r.0) }
    {
        let at = place(self.file, tokens);
        let rest = sign(tokens, Sign::Underscore)?;
        let rest = sign(rest, Sign::Equal)?;
        let (value, rest) = self.ended(rest)?;
        Ok((Stmt::Ignore { value, at }, rest))
    }

    /// `final T a = e;`
    pub(crate) fn final_stmt(self, tokens: &[Token]) -> Result<(Stmt, &[Token]), Stop<Missing>>
        ensures end { Leaves (spec.final_stmt (kinds_of tokens.now)) result }
        ensures reads { IfOk result (λ r. StmtReading r.0 self.file tokens.now r.1.now) }
        ensures chosen { IfOk result (λ r. IsChosenWithin r.0) }
    {
        let at = place(self.file, tokens);
        let rest = key(tokens, Keyword::Final)?;
        let ((ty, name, value), rest) = self.local(rest)?;
        Ok((
            Stmt::Local {
                is_final: true,
                ty,
                name,
                value,
                at,
            },
            rest,
        ))
    }

    /// `return;` or `return e;`
    pub(crate) fn return_stmt(self, tokens: &[Token]) -> Result<(Stmt, &[Token]), Stop<Missing>>
        ensures end { Leaves (spec.return_stmt (kinds_of tokens.now)) result }
        ensures reads { IfOk result (λ r. StmtReading r.0 self.file tokens.now r.1.now) }
        ensures chosen { IfOk result (λ r. IsChosenWithin r.0) }
    {
        let at = place(self.file, tokens);
        let behind = key(tokens, Keyword::Return)?;
        if let Some(rest) = after_sign(behind, Sign::Semicolon) {
            return Ok((Stmt::Return { value: None, at }, rest));
        }
        let (value, rest) = self.ended(behind)?;
        Ok((
            Stmt::Return {
                value: Some(value),
                at,
            },
            rest,
        ))
    }

    /// `panic e;`
    pub(crate) fn panic_stmt(self, tokens: &[Token]) -> Result<(Stmt, &[Token]), Stop<Missing>>
        ensures end { Leaves (spec.panic_stmt (kinds_of tokens.now)) result }
        ensures reads { IfOk result (λ r. StmtReading r.0 self.file tokens.now r.1.now) }
        ensures chosen { IfOk result (λ r. IsChosenWithin r.0) }
    {
        let at = place(self.file, tokens);
        let rest = key(tokens, Keyword::Panic)?;
        let (value, rest) = longest_expr(self.alloc, self.file, rest)?;
        let rest = sign(rest, Sign::Semicolon)?;
        Ok((Stmt::Panic { value, at }, rest))
    }

    /// `break;`
    pub(crate) fn break_stmt(self, tokens: &[Token]) -> Result<(Stmt, &[Token]), Stop<Missing>>
        ensures end { Leaves (spec.break_stmt (kinds_of tokens.now)) result }
        ensures reads { IfOk result (λ r. StmtReading r.0 self.file tokens.now r.1.now) }
        ensures chosen { IfOk result (λ r. IsChosenWithin r.0) }
    {
        let at = place(self.file, tokens);
        let rest = key(tokens, Keyword::Break)?;
        let rest = sign(rest, Sign::Semicolon)?;
        Ok((Stmt::Break { at }, rest))
    }

    /// `continue;`
    pub(crate) fn continue_stmt(self, tokens: &[Token]) -> Result<(Stmt, &[Token]), Stop<Missing>>
        ensures end { Leaves (spec.continue_stmt (kinds_of tokens.now)) result }
        ensures reads { IfOk result (λ r. StmtReading r.0 self.file tokens.now r.1.now) }
        ensures chosen { IfOk result (λ r. IsChosenWithin r.0) }
    {
        let at = place(self.file, tokens);
        let rest = key(tokens, Keyword::Continue)?;
        let rest = sign(rest, Sign::Semicolon)?;
        Ok((Stmt::Continue { at }, rest))
    }

    /// What stands before the block of a loop over values.
    pub(crate) fn foreach_head(
        self,
        tokens: &[Token],
    ) -> Result<(ForeachHead, &[Token]), Stop<Missing>>
        ensures end { Leaves (spec.foreach_head (kinds_of tokens.now)) result }
        ensures reads { IfOk result (λ r. Reading (local_type_is_formed r.0.0 && expr_is_formed r.0.2.value false && range_is_formed r.0.3) (foreach_pieces r.0.0 r.0.1 r.0.2.value r.0.3) self.file tokens.now r.1.now) }
    {
        let rest = key(tokens, Keyword::Foreach)?;
        let (ty, rest) = self.local_type(rest)?;
        let (name, rest) = word_here(self.file, rest)?;
        let rest = key(rest, Keyword::In)?;
        let (from, rest) = longest_expr(self.alloc, self.file, rest)?;
        let (range, rest) = self.range_if_there(rest)?;
        Ok(((ty, name, from, range), rest))
    }

    /// `... e` or `..< e`, if it is there.
    fn range_if_there(self, tokens: &[Token]) -> Result<(Option<Range>, &[Token]), Stop<Missing>>
        ensures end { Leaves (spec.range_if (kinds_of tokens.now)) result }
        ensures formed { IfOk result (λ r. range_is_formed r.0 ≡ true) }
        ensures spells { IfOk result (λ r. Spells self.file (if_there range_pieces r.0) tokens.now r.1.now) }
        ensures no_longer { IfOk result (λ r. length r.1.now ≤ length tokens.now) }
    {
        if let Some(behind) = after_sign(tokens, Sign::Ellipsis) {
            let (end, rest) = longest_expr(self.alloc, self.file, behind)?;
            let op = RangeOp::Through;
            return Ok((Some(Range { op, end }), rest));
        }
        if let Some(behind) = after_sign(tokens, Sign::DotDotLess) {
            let (end, rest) = longest_expr(self.alloc, self.file, behind)?;
            let op = RangeOp::Below;
            return Ok((Some(Range { op, end }), rest));
        }
        Ok((None, tokens))
    }
}
