//! Definitions.
#![tactic(auto, using(parse_types::proofs::Readings::spelling))]

ghost use Rattle.std.specs.Prelude.{◌≡◌, ◌≤◌, ◌&&◌, ◌||◌, not, true, false, map, length, IfOk, ◌++◌};
ghost use Rattle.std.specs.List.{list_all};
ghost use Rattle.bal_tree.specs.ActionRules.{has_members};
ghost use Rattle.bal_tree.specs.DefPieces.{body_pieces, worker_pieces};
ghost use Rattle.bal_tree.specs.DefRules.{body_is_formed, def_is_formed, function_is_formed, type_is_formed_if, worker_is_formed};
ghost use Rattle.bal_tree.specs.ExprRules.{expr_is_formed};
ghost use Rattle.bal_tree.specs.Pieces.{if_boxed, joined, ◌&◌};
ghost use Rattle.bal_tree.specs.Spells.{Spells, kinds_of};
ghost use Rattle.bal_tree.specs.StmtPieces.{stmt_pieces};
ghost use Rattle.bal_tree.specs.StmtRules.{stmt_is_formed};
ghost use Rattle.bal_tree.specs.TypePieces.{returning, type_pieces};
ghost use Rattle.bal_tree.specs.TypeRules.{type_is_formed};
ghost use Rattle.parse_types.specs.Starts.{Leaves, Reading};
ghost use Rattle.parse_stmt.specs.Chosen.{AreChosen, led_in_body, led_in_def, led_in_stmts, led_in_worker, led_in_workers};
ghost use Rattle.parse_stmt.specs.Reaches as spec;
ghost use Rattle.parse_stmt.specs.Starts.{BehindReading, DefReading, WorkerReading, const_def_behind, function_def_behind, type_def_behind, variable_def_behind};

use crate::names::{const_value, key_if_there, word_here};
use crate::reader::StmtReader;
use bal_base::{Keyword, Place, Sign, Stop, Token, TokenKind};
use bal_tree::{Body, ConstDef, Def, FunctionDef, Stmt, TypeDef, TypeTree, VariableDef, Worker};
use parse_expr::{longest_expr, params, type_here};
use parse_types::{Missing, after_key, after_sign, key, optional, place, sign, word};

impl StmtReader {
    /// A definition.
    pub(crate) fn def(self, room: usize, tokens: &[Token]) -> Result<(Def, &[Token]), Stop<Missing>>
        ensures end { Leaves (spec.def room (kinds_of tokens.now)) result }
        ensures reads { IfOk result (λ r. DefReading r.0 self.file tokens.now r.1.now) }
        ensures chosen { IfOk result (λ r. AreChosen (led_in_def r.0)) }
    {
        let at = place(self.file, tokens);
        let (public, rest) = key_if_there(tokens, Keyword::Public);
        let Some((first, _)) = rest.split_first() else {
            return Err(Stop::Fault(Missing));
        };
        match &first.kind {
            TokenKind::Keyword(Keyword::Type) => {
                let (d, rest) = self.type_def(public, at, rest)?;
                Ok((Def::Type(d), rest))
            }
            TokenKind::Keyword(Keyword::Const) => {
                let (d, rest) = self.const_def(public, at, rest)?;
                Ok((Def::Const(d), rest))
            }
            _ => self.function_or_variable(room, public, at, rest),
        }
    }

    /// A function or a variable of the module, behind `public`.
    fn function_or_variable(
        self,
        room: usize,
        public: bool,
        at: Place,
        tokens: &[Token],
    ) -> Result<(Def, &[Token]), Stop<Missing>>
        ensures end { Leaves (spec.function_or room (spec.begins_function (kinds_of tokens.now)) (kinds_of tokens.now)) result }
        ensures reads { IfOk result (λ r. BehindReading public at r.0 self.file tokens.now r.1.now) }
        ensures chosen { IfOk result (λ r. AreChosen (led_in_def r.0)) }
    {
        if begins_function(self.file, tokens) {
            let (d, rest) = self.function_def(room, public, at, tokens)?;
            return Ok((Def::Function(d), rest));
        }
        let (d, rest) = self.variable_def(public, at, tokens)?;
        Ok((Def::Variable(d), rest))
    }

    /// `type A T;`
    fn type_def(
        self,
        public: bool,
        at: Place,
        tokens: &[Token],
    ) -> Result<(TypeDef, &[Token]), Stop<Missing>>
        ensures end { Leaves (spec.type_def (kinds_of tokens.now)) result }
        ensures public { IfOk result (λ r. r.0.public ≡ public) }
        ensures at { IfOk result (λ r. r.0.at ≡ at) }
        ensures reads { IfOk result (λ r. Reading (type_is_formed r.0.ty.value false) (type_def_behind r.0) self.file tokens.now r.1.now) }
    {
        let rest = key(tokens, Keyword::Type)?;
        let (name, rest) = word_here(self.file, rest)?;
        let (ty, rest) = type_here(self.alloc, self.file, false, rest)?;
        let rest = sign(rest, Sign::Semicolon)?;
        Ok((
            TypeDef {
                public,
                name,
                ty,
                at,
            },
            rest,
        ))
    }

    /// `const T A = 1;`
    fn const_def(
        self,
        public: bool,
        at: Place,
        tokens: &[Token],
    ) -> Result<(ConstDef, &[Token]), Stop<Missing>>
        ensures end { Leaves (spec.const_def (kinds_of tokens.now)) result }
        ensures public { IfOk result (λ r. r.0.public ≡ public) }
        ensures at { IfOk result (λ r. r.0.at ≡ at) }
        ensures reads { IfOk result (λ r. Reading (type_is_formed_if r.0.ty) (const_def_behind r.0) self.file tokens.now r.1.now) }
    {
        let rest = key(tokens, Keyword::Const)?;
        let (ty, rest) = self.const_type(rest)?;
        let (name, rest) = word_here(self.file, rest)?;
        let rest = sign(rest, Sign::Equal)?;
        let (value, rest) = const_value(self.file, rest)?;
        let rest = sign(rest, Sign::Semicolon)?;
        Ok((
            ConstDef {
                public,
                ty,
                name,
                value,
                at,
            },
            rest,
        ))
    }

    /// The type of a constant, if one stands before its name.
    fn const_type(
        self,
        tokens: &[Token],
    ) -> Result<(Option<Box<TypeTree>>, &[Token]), Stop<Missing>>
        ensures end { Leaves (spec.const_type (kinds_of tokens.now)) result }
        ensures formed { IfOk result (λ r. type_is_formed_if r.0 ≡ true) }
        ensures spells { IfOk result (λ r. Spells self.file (if_boxed type_pieces r.0) tokens.now r.1.now) }
        ensures no_longer { IfOk result (λ r. length r.1.now ≤ length tokens.now) }
    {
        if is_named(self.file, tokens) {
            return Ok((None, tokens));
        }
        let (ty, rest) = type_here(self.alloc, self.file, false, tokens)?;
        Ok((Some(ty), rest))
    }

    /// `T a = e;`, where `final` may stand before it.
    fn variable_def(
        self,
        public: bool,
        at: Place,
        tokens: &[Token],
    ) -> Result<(VariableDef, &[Token]), Stop<Missing>>
        ensures end { Leaves (spec.variable_def (kinds_of tokens.now)) result }
        ensures public { IfOk result (λ r. r.0.public ≡ public) }
        ensures at { IfOk result (λ r. r.0.at ≡ at) }
        ensures reads { IfOk result (λ r. Reading (type_is_formed r.0.ty.value false && expr_is_formed r.0.value.value false) (variable_def_behind r.0) self.file tokens.now r.1.now) }
    {
        let (is_final, rest) = key_if_there(tokens, Keyword::Final);
        let (ty, rest) = type_here(self.alloc, self.file, false, rest)?;
        let (name, rest) = word_here(self.file, rest)?;
        let rest = sign(rest, Sign::Equal)?;
        let (value, rest) = longest_expr(self.alloc, self.file, rest)?;
        let rest = sign(rest, Sign::Semicolon)?;
        Ok((
            VariableDef {
                public,
                is_final,
                ty,
                name,
                value,
                at,
            },
            rest,
        ))
    }

    /// `function f(T a) returns R BODY`, where `isolated` may stand before it.
    fn function_def(
        self,
        room: usize,
        public: bool,
        at: Place,
        tokens: &[Token],
    ) -> Result<(FunctionDef, &[Token]), Stop<Missing>>
        ensures end { Leaves (spec.function_def room (kinds_of tokens.now)) result }
        ensures public { IfOk result (λ r. r.0.public ≡ public) }
        ensures at { IfOk result (λ r. r.0.at ≡ at) }
        ensures reads { IfOk result (λ r. Reading (function_is_formed r.0) (function_def_behind r.0) self.file tokens.now r.1.now) }
        ensures chosen { IfOk result (λ r. AreChosen (led_in_body r.0.body)) }
    {
        let (isolated, rest) = key_if_there(tokens, Keyword::Isolated);
        let rest = key(rest, Keyword::Function)?;
        let (name, rest) = word_here(self.file, rest)?;
        let (params, rest) = params(self.alloc, self.file, rest)?;
        let (result, rest) = self.result_if_there(rest)?;
        let (body, rest) = self.body(room, rest)?;
        Ok((
            FunctionDef {
                public,
                isolated,
                name,
                params,
                result,
                body,
                at,
            },
            rest,
        ))
    }

    /// `returns T`, if it is there.
    pub(crate) fn result_if_there(
        self,
        tokens: &[Token],
    ) -> Result<(Option<Box<TypeTree>>, &[Token]), Stop<Missing>>
        ensures end { Leaves (spec.result_if (kinds_of tokens.now)) result }
        ensures formed { IfOk result (λ r. type_is_formed_if r.0 ≡ true) }
        ensures spells { IfOk result (λ r. Spells self.file (if_boxed (λ t. returning (type_pieces t)) r.0) tokens.now r.1.now) }
        ensures no_longer { IfOk result (λ r. length r.1.now ≤ length tokens.now) }
    {
        let Some(behind) = after_key(tokens, Keyword::Returns) else {
            return Ok((None, tokens));
        };
        let (ty, rest) = type_here(self.alloc, self.file, false, behind)?;
        Ok((Some(ty), rest))
    }

    /// The body of a function.
    fn body(self, room: usize, tokens: &[Token]) -> Result<(Body, &[Token]), Stop<Missing>>
        ensures end { Leaves (spec.body room (kinds_of tokens.now)) result }
        ensures reads { IfOk result (λ r. Reading (body_is_formed r.0) (body_pieces r.0) self.file tokens.now r.1.now) }
        ensures chosen { IfOk result (λ r. AreChosen (led_in_body r.0)) }
    {
        if after_sign(tokens, Sign::OpenBrace).is_some() {
            return self.block_body(room, tokens);
        }
        self.expr_body(tokens)
    }

    /// `=> e;`
    fn expr_body(self, tokens: &[Token]) -> Result<(Body, &[Token]), Stop<Missing>>
        ensures end { Leaves (spec.expr_body (kinds_of tokens.now)) result }
        ensures reads { IfOk result (λ r. Reading (body_is_formed r.0) (body_pieces r.0) self.file tokens.now r.1.now) }
        ensures chosen { IfOk result (λ r. AreChosen (led_in_body r.0)) }
    {
        let at = place(self.file, tokens);
        let rest = sign(tokens, Sign::FatArrow)?;
        let (value, rest) = longest_expr(self.alloc, self.file, rest)?;
        let rest = sign(rest, Sign::Semicolon)?;
        Ok((Body::Expr { value, at }, rest))
    }

    /// Statements and workers between braces.
    fn block_body(self, room: usize, tokens: &[Token]) -> Result<(Body, &[Token]), Stop<Missing>>
        ensures end { Leaves (spec.block_body room (kinds_of tokens.now)) result }
        ensures reads { IfOk result (λ r. Reading (body_is_formed r.0) (body_pieces r.0) self.file tokens.now r.1.now) }
        ensures chosen { IfOk result (λ r. AreChosen (led_in_body r.0)) }
    {
        let at = place(self.file, tokens);
        let inside = sign(tokens, Sign::OpenBrace)?;
        let (stmts, behind) = self.stmts(room, inside)?;
        let ((workers, rest), behind) = self.workers_if_there(room, behind)?;
        let close = place(self.file, behind);
        let after = sign(behind, Sign::CloseBrace)?;
        Ok((
            Body::Block {
                stmts,
                workers,
                rest,
                close,
                at,
            },
            after,
        ))
    }

    /// Workers, and the statements behind them, if there are any.
    fn workers_if_there(
        self,
        room: usize,
        tokens: &[Token],
    ) -> Result<((Vec<Worker>, Vec<Stmt>), &[Token]), Stop<Missing>>
        ensures end { Leaves (spec.workers_if room (kinds_of tokens.now)) result }
        ensures formed { IfOk result (λ r. (list_all worker_is_formed r.0.0.items && list_all stmt_is_formed r.0.1.items && (has_members r.0.0.items || not (has_members r.0.1.items))) ≡ true) }
        ensures spells { IfOk result (λ r. Spells self.file (joined (map worker_pieces r.0.0.items) & joined (map stmt_pieces r.0.1.items)) tokens.now r.1.now) }
        ensures no_longer { IfOk result (λ r. length r.1.now ≤ length tokens.now) }
        ensures chosen { IfOk result (λ r. AreChosen (led_in_workers r.0.0.items ++ led_in_stmts r.0.1.items)) }
    {
        if after_key(tokens, Keyword::Worker).is_none() {
            let workers = Vec::new(self.alloc);
            let rest = Vec::new(self.alloc);
            return Ok(((workers, rest), tokens));
        }
        let (workers, behind) = self.workers(room, tokens)?;
        let (rest, behind) = self.stmts(room, behind)?;
        Ok(((workers, rest), behind))
    }

    /// One or more workers.
    fn workers(
        self,
        room: usize,
        tokens: &[Token],
    ) -> Result<(Vec<Worker>, &[Token]), Stop<Missing>>
        ensures end { Leaves (spec.workers room (kinds_of tokens.now)) result }
        ensures reads { IfOk result (λ r. Reading (has_members r.0.items && list_all worker_is_formed r.0.items) (joined (map worker_pieces r.0.items)) self.file tokens.now r.1.now) }
        ensures chosen { IfOk result (λ r. AreChosen (led_in_workers r.0.items)) }
    {
        let mut workers = Vec::new(self.alloc);
        let (first, mut rest) = self.worker(room, tokens)?;
        workers.push(first)?;
        while let Some((next, after)) = optional(self.worker(room, rest))? {
            workers.push(next)?;
            rest = after;
        }
        Ok((workers, rest))
    }

    /// `worker A returns T { .. }`
    fn worker(self, room: usize, tokens: &[Token]) -> Result<(Worker, &[Token]), Stop<Missing>>
        ensures end { Leaves (spec.worker room (kinds_of tokens.now)) result }
        ensures reads { IfOk result (λ r. WorkerReading r.0 self.file tokens.now r.1.now) }
        ensures chosen { IfOk result (λ r. AreChosen (led_in_worker r.0)) }
    {
        let at = place(self.file, tokens);
        let rest = key(tokens, Keyword::Worker)?;
        let (name, rest) = word_here(self.file, rest)?;
        let (result, rest) = self.result_if_there(rest)?;
        let (body, rest) = self.inner_block(room, rest)?;
        Ok((
            Worker {
                name,
                result,
                body,
                at,
            },
            rest,
        ))
    }
}

/// Whether `function f (` stands here, where `isolated` may stand before it.
fn begins_function(file: u32, tokens: &[Token]) -> bool
    ensures { result ≡ spec.begins_function (kinds_of tokens.now) }
{
    let (_, rest) = key_if_there(tokens, Keyword::Isolated);
    let Some(rest) = after_key(rest, Keyword::Function) else {
        return false;
    };
    match word(file, rest) {
        Some((_, rest)) => after_sign(rest, Sign::OpenParen).is_some(),
        None => false,
    }
}

/// Whether a word and `=` stand here.
fn is_named(file: u32, tokens: &[Token]) -> bool
    ensures { result ≡ spec.is_named (kinds_of tokens.now) }
{
    match word(file, tokens) {
        Some((_, rest)) => after_sign(rest, Sign::Equal).is_some(),
        None => false,
    }
}
