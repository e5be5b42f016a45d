//! Statements that begin with a type or an expression.
#![tactic(auto, using(parse_types::proofs::Readings::spelling, bal_tree::proofs::ExprLayers::expr_layers, bal_tree::proofs::StmtLayers::stmt_layers))]

ghost use Rattle.std.specs.Prelude.{◌≡◌, ◌&&◌, true, false, option_map, IfOk, MatchOption};
ghost use Rattle.bal_base.specs.declared.token.Sign.TheVariants.{Semicolon};
ghost use Rattle.bal_tree.specs.ActionRules.{rhs_is_formed};
ghost use Rattle.bal_tree.specs.ExprPieces.{postfix_pieces, primary_pieces};
ghost use Rattle.bal_tree.specs.NamePieces.{name_pieces};
ghost use Rattle.bal_tree.specs.declared.level.Level.TheVariants.{Postfix as PostfixLevel};
ghost use Rattle.bal_tree.specs.ExprRules.{expr_facts, is_check, postfix_is_formed};
ghost use Rattle.bal_tree.specs.Pieces.{sign as sign_piece, ◌&◌};
ghost use Rattle.bal_tree.specs.Spells.{kinds_of};
ghost use Rattle.bal_tree.specs.StmtPieces.{assign_sign, ended as ended_pieces, local_pieces, local_type_pieces, target_pieces};
ghost use Rattle.bal_tree.specs.StmtRules.{local_type_is_formed, stands_alone, target_is_formed};
ghost use Rattle.parse_types.specs.Starts.{Leaves, Reading};
ghost use Rattle.parse_expr.specs.Starts.{ExprReading};
ghost use Rattle.parse_stmt.specs.Shapes.{name_alone, other_alone, postfix_last, primary_last};
ghost use Rattle.parse_stmt.specs.Reaches as spec;
ghost use Rattle.parse_stmt.specs.Starts.{CheckedReading, IsChosenWithin, RhsReading, StmtReading};

use crate::actions::{begins_simple, postfix_of};
use crate::ahead::{Mark, first_mark, semicolon};
use crate::names::word_here;
use crate::reader::StmtReader;
use bal_base::{Keyword, Place, Sign, Stop, Token, TokenKind};
use bal_tree::{
    AssignOp, Expr, LocalType, Postfix, PrefixOp, Primary, QualifiedName, Rhs, Stmt, Target, Word,
};
use parse_expr::{longest_expr, type_here};
use parse_types::{Missing, after_key, place, sign};

/// What a statement assigns to, where the expression is that.
fn target_of(p: Postfix) -> Option<Target>
    ensures { MatchOption result (spec.is_target (postfix_last p) ≡ false) (λ t. (spec.is_target (postfix_last p) ≡ true) × (target_pieces t ≡ postfix_pieces p) × (postfix_is_formed p false ≡ true → target_is_formed t ≡ true)) }
{
    match p {
        Postfix::Index { base, index, at } => Some(Target::Index { base, index, at }),
        Postfix::Field { base, field, at } => Some(Target::Field { base, field, at }),
        Postfix::Primary(e) => {
            let name = name_of(e)?;
            Some(Target::Name(name))
        }
        _ => None,
    }
}

/// The name that the expression is.
fn name_of(e: Primary) -> Option<QualifiedName>
    ensures { MatchOption result (primary_last e ≡ other_alone) (λ n. (primary_last e ≡ name_alone) × (primary_pieces e ≡ name_pieces n)) }
{
    match e {
        Primary::Name(name) => Some(name),
        _ => None,
    }
}

/// The sign of an assignment.
fn assign_op(tokens: &[Token]) -> Result<(AssignOp, &[Token]), Stop<Missing>>
    ensures end { Leaves (spec.assign_op (kinds_of tokens.now)) result }
    ensures reads { IfOk result (λ r. (file : _) → Reading true (sign_piece (assign_sign r.0)) file tokens.now r.1.now) }
{
    let Some((first, rest)) = tokens.split_first() else {
        return Err(Stop::Fault(Missing));
    };
    match &first.kind {
        TokenKind::Sign(Sign::Equal) => Ok((AssignOp::Set, rest)),
        TokenKind::Sign(Sign::PlusEqual) => Ok((AssignOp::Add, rest)),
        TokenKind::Sign(Sign::MinusEqual) => Ok((AssignOp::Subtract, rest)),
        TokenKind::Sign(Sign::StarEqual) => Ok((AssignOp::Multiply, rest)),
        TokenKind::Sign(Sign::SlashEqual) => Ok((AssignOp::Divide, rest)),
        _ => Err(Stop::Fault(Missing)),
    }
}

impl StmtReader {
    /// What a statement assigns to.
    fn target(self, tokens: &[Token]) -> Result<(Target, &[Token]), Stop<Missing>>
        ensures end { Leaves (spec.target (kinds_of tokens.now)) result }
        ensures reads { IfOk result (λ r. Reading (target_is_formed r.0) (target_pieces r.0) self.file tokens.now r.1.now) }
    {
        let (e, rest) = longest_expr(self.alloc, self.file, tokens)?;
        let Some(p) = postfix_of(Box::into_inner(e)) else {
            return Err(Stop::Fault(Missing));
        };
        match target_of(p) {
            Some(target) => Ok((target, rest)),
            None => Err(Stop::Fault(Missing)),
        }
    }

    /// `a = e;`, or an operator with it.
    fn assign(self, tokens: &[Token]) -> Result<(Stmt, &[Token]), Stop<Missing>>
        ensures end { Leaves (spec.assign (kinds_of tokens.now)) result }
        ensures reads { IfOk result (λ r. StmtReading r.0 self.file tokens.now r.1.now) }
        ensures chosen { IfOk result (λ r. IsChosenWithin r.0) }
    {
        let at = place(self.file, tokens);
        let (target, rest) = self.target(tokens)?;
        let (op, rest) = assign_op(rest)?;
        let (value, rest) = self.ended(rest)?;
        Ok((
            Stmt::Assign {
                target,
                op,
                value,
                at,
            },
            rest,
        ))
    }

    /// A type, or `var`.
    pub(crate) fn local_type(self, tokens: &[Token]) -> Result<(LocalType, &[Token]), Stop<Missing>>
        ensures end { Leaves (spec.local_type (kinds_of tokens.now)) result }
        ensures reads { IfOk result (λ r. Reading (local_type_is_formed r.0) (local_type_pieces r.0) self.file tokens.now r.1.now) }
    {
        let at = place(self.file, tokens);
        if let Some(rest) = after_key(tokens, Keyword::Var) {
            return Ok((LocalType::Var { at }, rest));
        }
        let (ty, rest) = type_here(self.alloc, self.file, false, tokens)?;
        Ok((LocalType::Type(ty), rest))
    }

    /// `T a = e;`, which is its type, its name and its value.
    pub(crate) fn local(
        self,
        tokens: &[Token],
    ) -> Result<((LocalType, Word, Rhs), &[Token]), Stop<Missing>>
        ensures end { Leaves (spec.local (kinds_of tokens.now)) result }
        ensures reads { IfOk result (λ r. Reading (local_type_is_formed r.0.0 && rhs_is_formed r.0.2) (local_pieces r.0.0 r.0.1 r.0.2) self.file tokens.now r.1.now) }
    {
        let (ty, rest) = self.local_type(tokens)?;
        let (name, rest) = word_here(self.file, rest)?;
        let rest = sign(rest, Sign::Equal)?;
        let (value, rest) = self.ended(rest)?;
        Ok(((ty, name, value), rest))
    }

    /// A call as an expression.
    fn call_expr(self, tokens: &[Token]) -> Result<(Expr, &[Token]), Stop<Missing>>
        ensures end { Leaves (spec.call (kinds_of tokens.now)) result }
        ensures reads { IfOk result (λ r. ExprReading false r.0 self.file tokens.now r.1.now) }
        ensures is_call { IfOk result (λ r. (expr_facts r.0).is_call ≡ true) }
        ensures tight { IfOk result (λ r. (expr_facts r.0).level ≡ PostfixLevel) }
        ensures alone { IfOk result (λ r. (expr_facts r.0).stands_alone ≡ true) }
    {
        let (call, rest) = self.call(tokens)?;
        Ok((Expr::Postfix(Postfix::Call(call)), rest))
    }

    /// A call, or a `check`, `checkpanic` or `trap` of one.
    fn call_alone(self, tokens: &[Token]) -> Result<(Expr, &[Token]), Stop<Missing>>
        ensures end { Leaves (spec.call_alone (kinds_of tokens.now)) result }
        ensures reads { IfOk result (λ r. ExprReading false r.0 self.file tokens.now r.1.now) }
        ensures alone { IfOk result (λ r. (expr_facts r.0).stands_alone ≡ true) }
    {
        let Some((first, rest)) = tokens.split_first() else {
            return self.call_expr(tokens);
        };
        let at = place(self.file, tokens);
        match &first.kind {
            TokenKind::Keyword(Keyword::Check) => self.checked(PrefixOp::Check, at, rest),
            TokenKind::Keyword(Keyword::CheckPanic) => self.checked(PrefixOp::CheckPanic, at, rest),
            TokenKind::Keyword(Keyword::Trap) => {
                let (e, rest) = self.call_expr(rest)?;
                let operand = Box::new(self.alloc, e)?;
                Ok((Expr::Trap { operand, at }, rest))
            }
            _ => self.call_expr(tokens),
        }
    }

    /// A call behind this word at this place.
    fn checked(
        self,
        op: PrefixOp,
        at: Place,
        tokens: &[Token],
    ) -> Result<(Expr, &[Token]), Stop<Missing>>
        requires { is_check op ≡ true }
        ensures end { Leaves (spec.call (kinds_of tokens.now)) result }
        ensures reads { IfOk result (λ r. CheckedReading op at r.0 self.file tokens.now r.1.now) }
        ensures alone { IfOk result (λ r. (expr_facts r.0).stands_alone ≡ true) }
    {
        let (e, rest) = self.call_expr(tokens)?;
        let operand = Box::new(self.alloc, e)?;
        Ok((Expr::Prefix { op, operand, at }, rest))
    }

    /// What may be a statement with a semicolon behind it, and is no send.
    fn alone(self, tokens: &[Token]) -> Result<(Rhs, &[Token]), Stop<Missing>>
        ensures end { Leaves (spec.alone_or (spec.begins_simple (kinds_of tokens.now)) (kinds_of tokens.now)) result }
        ensures reads { IfOk result (λ r. RhsReading r.0 self.file tokens.now r.1.now) }
        ensures alone { IfOk result (λ r. stands_alone r.0 ≡ true) }
    {
        if begins_simple(tokens) {
            let (action, rest) = self.simple(tokens)?;
            return Ok((Rhs::Action(action), rest));
        }
        let (e, rest) = self.call_alone(tokens)?;
        Ok((Rhs::Expr(Box::new(self.alloc, e)?), rest))
    }

    /// The same or a send, where this mark stands in the statement.
    fn rhs_alone(self, m: Mark, tokens: &[Token]) -> Result<(Rhs, &[Token]), Stop<Missing>>
        ensures end { Leaves (spec.rhs_alone m (kinds_of tokens.now)) result }
        ensures reads { IfOk result (λ r. RhsReading r.0 self.file tokens.now r.1.now) }
        ensures alone { IfOk result (λ r. stands_alone r.0 ≡ true) }
    {
        match m {
            Mark::Sends => {
                let (action, rest) = self.send(tokens)?;
                Ok((Rhs::Action(action), rest))
            }
            Mark::SendsSync => {
                let (action, rest) = self.sync_send(tokens)?;
                Ok((Rhs::Action(action), rest))
            }
            Mark::Declares | Mark::Assigns | Mark::Nothing => self.alone(tokens),
        }
    }

    /// An expression or an action of its own, and the semicolon behind it.
    fn rhs_stmt(self, m: Mark, tokens: &[Token]) -> Result<(Stmt, &[Token]), Stop<Missing>>
        ensures end { Leaves (spec.rhs_stmt m (kinds_of tokens.now)) result }
        ensures reads { IfOk result (λ r. StmtReading r.0 self.file tokens.now r.1.now) }
        ensures chosen { IfOk result (λ r. IsChosenWithin r.0) }
    {
        let at = place(self.file, tokens);
        let (rhs, rest) = self.rhs_alone(m, tokens)?;
        let rest = sign(rest, Sign::Semicolon)?;
        Ok((Stmt::Rhs { rhs, at }, rest))
    }

    /// A statement in which this mark stands.
    fn led_by(self, m: Mark, tokens: &[Token]) -> Result<(Stmt, &[Token]), Stop<Missing>>
        ensures end { Leaves (spec.led_by m (kinds_of tokens.now)) result }
        ensures reads { IfOk result (λ r. StmtReading r.0 self.file tokens.now r.1.now) }
        ensures chosen { IfOk result (λ r. IsChosenWithin r.0) }
    {
        match m {
            Mark::Declares => self.declared(tokens),
            Mark::Assigns => self.assign(tokens),
            Mark::Sends | Mark::SendsSync | Mark::Nothing => self.rhs_stmt(m, tokens),
        }
    }

    /// `T a = e;`
    pub(crate) fn declared(self, tokens: &[Token]) -> Result<(Stmt, &[Token]), Stop<Missing>>
        ensures end { Leaves (spec.local (kinds_of tokens.now)) result }
        ensures reads { IfOk result (λ r. StmtReading r.0 self.file tokens.now r.1.now) }
        ensures chosen { IfOk result (λ r. IsChosenWithin r.0) }
    {
        let at = place(self.file, tokens);
        let ((ty, name, value), rest) = self.local(tokens)?;
        Ok((
            Stmt::Local {
                is_final: false,
                ty,
                name,
                value,
                at,
            },
            rest,
        ))
    }

    /// A statement that begins with a type or an expression. It ends at the first semicolon outside brackets.
    pub(crate) fn led(self, tokens: &[Token]) -> Result<(Stmt, &[Token]), Stop<Missing>>
        ensures end { Leaves (spec.led (kinds_of tokens.now)) result }
        ensures reads { IfOk result (λ r. StmtReading r.0 self.file tokens.now r.1.now) }
        ensures chosen { IfOk result (λ r. IsChosenWithin r.0) }
    {
        let Some(end) = semicolon(tokens) else {
            return Err(Stop::Fault(Missing));
        };
        let (stmt, rest) = self.led_by(first_mark(tokens), tokens)?;
        if rest.len() != end.len() {
            return Err(Stop::Fault(Missing));
        }
        Ok((stmt, rest))
    }
}
