//! Matches: where one begins, and how a clause of it ends.
#![tactic(auto, using(check_work::proofs::Noting::meeting))]

ghost use Rattle.std.specs.Prelude.{◌≡◌, ◌++◌, ◌∷◌, [], IfOk, List, OnOk, Ok as Given, option_map};
ghost use Rattle.std.specs.Option.{option_copied};
ghost use Rattle.checks.specs.Checks.{Comes};
ghost use Rattle.needs.specs.Needs.{Runs};
ghost use Rattle.type_model.specs.declared.atoms.AtomDef.{AtomDef as Atom};
ghost use Rattle.typed_tree.specs.declared.expr.TypedExpr.{TypedExpr as TypedExprOf};
ghost use Rattle.typed_tree.specs.Exprs.{type_of};
ghost use Rattle.typed_tree.specs.Listed.{one};
ghost use Rattle.expr_needs.specs.ExprTable.{read_expr};
ghost use Rattle.expr_needs.specs.Needs.{BeginsMatch, EndsClause};
ghost use Rattle.check_words.specs.Branches.{begins_match as begins_match_of, ends_clause as ends_clause_of, variable_of_name};
ghost use Rattle.check_words.specs.Meets.{meets};
ghost use Rattle.check_words.specs.Seen.{variable_named};
ghost use Rattle.check_words.specs.Sharing.{SameShared};
ghost use Rattle.check_words.specs.Stands.{Stands};
ghost use Rattle.check_words.specs.State.{IsLast};
ghost use Rattle.check_words.specs.StmtViews.{IsClause};
ghost use Rattle.check_work.specs.Views.{Holds, going, match_of, state_of};

use crate::names::name_of;
use bal_base::{Memory, Name, Place};
use bal_tree::{Expr, QualifiedName};
use check_work::{
    Checker, Match, Work, at_hand, close_block, find_variable, has_stopped, last, last_taken,
    note_made, shared,
};
use expr_needs::place;
use flow_narrowing::{Flow, Variable};
use std::alloc::Global;
use std::mem;
use type_model::Types;
use typed_tree::{SharedTy, TypedClause, TypedExpr, TypedPattern, TypedStmt};

/// The type of the last part.
fn last_type(found: &[TypedExpr]) -> Result<SharedTy, Memory>
    ensures { IfOk result (λ t. (e : TypedExprOf) × IsLast found.now e × SameShared (type_of e) t) }
{
    match last(found) {
        Some(e) => shared(e.ty()),
        None => Err(Memory),
    }
}

/// The variable of the unit that the name stands for, by its own name.
fn named(variables: &[Variable], q: &QualifiedName) -> Option<Name>
    ensures { result ≡ option_map (λ v. v.name) (variable_named variables.now q.now) }
{
    match q.prefix {
        Some(_) => None,
        None => match find_variable(variables, &q.word.name) {
            Some(v) => Some(v.name.share()),
            None => None,
        },
    }
}

/// The same where there is a name.
fn matched(variables: &[Variable], name: Option<&QualifiedName>) -> Option<Name>
    ensures { result ≡ option_map (λ v. v.name) (variable_of_name variables.now (option_copied name.entry)) }
{
    match name {
        Some(q) => named(variables, q),
        None => None,
    }
}

/// A match without clauses.
fn opened(alloc: Global, at: Place, on: Option<Name>, before: Flow, left: SharedTy) -> Match
    ensures { match_of result ≡ record { at = at; on = on; before = before; left = left; patterns = []; clauses = []; ends = [] } }
{
    Match {
        at,
        on,
        before,
        left,
        patterns: Vec::new(alloc),
        clauses: Vec::new(alloc),
        ends: Vec::new(alloc),
    }
}

/// A match on the last part, which has this name, begins.
fn begin_match(
    alloc: Global,
    work: &mut Work<'_>,
    name: Option<&QualifiedName>,
    at: Place,
) -> Result<(), Memory>
    ensures stands { (env : List Atom) → Stands (state_of env work.old) → OnOk result (Stands (state_of env work.new)) }
    ensures comes { (env : List Atom) → OnOk result (Comes (begins_match_of (option_copied name.entry) at) (state_of env work.old) (Given tt) (state_of env work.new)) }
{
    let left = last_type(work.found.as_slice())?;
    let unit = at_hand(&work.unit)?;
    let before = unit.here.flow(alloc)?;
    let on = matched(unit.here.variables.as_slice(), name);
    work.matches.push(opened(alloc, at, on, before, left))?;
    work.ways = None;
    Ok(())
}

/// `match e { .. }`: a match on the last part, which is this expression, begins ("Match statement"). Where it is the name of a variable,
/// each clause knows more of it. It costs by the variables that are seen.
pub fn begins_match<T: Types>(checker: &mut Checker<'_, T>, value: &Expr)
    requires { Holds (T.atoms checker.old.types) checker.old.names.now checker.old.work }
    ensures holds { Holds (T.atoms checker.new.types) checker.new.names.now checker.new.work }
    ensures names { checker.new.names.now ≡ checker.old.names.now }
    ensures met { Runs (meets T.passes checker.old.names.now) (one (BeginsMatch (read_expr value.now).name (read_expr value.now).at)) (going (T.atoms checker.old.types) checker.old.work) (going (T.atoms checker.new.types) checker.new.work) }
{
    if has_stopped(&checker.work) {
        return;
    }
    let name = name_of(value);
    let at = place(value);
    let made = begin_match(checker.alloc, &mut checker.work, name, at);
    note_made(&checker.types, &mut checker.work, made);
}

/// The clause.
fn clause_of(patterns: Vec<TypedPattern>, stmts: Vec<TypedStmt>, at: Place) -> TypedClause
    ensures { IsClause patterns.items stmts.items at result }
{
    TypedClause::new(patterns, stmts, at)
}

/// The patterns of the clause at hand are taken.
fn take_patterns(alloc: Global, held: &mut Match) -> Vec<TypedPattern>
    ensures taken { result.items ≡ held.old.patterns.items }
    ensures left { match_of held.new ≡ record (match_of held.old) { patterns = [] } }
{
    mem::replace(&mut held.patterns, Vec::new(alloc))
}

/// One clause more is done, and has come to this flow.
fn finish(held: &mut Match, clause: TypedClause, end: Flow) -> Result<(), Memory>
    ensures { OnOk result (match_of held.new ≡ record (match_of held.old) { clauses = held.old.clauses.items ++ clause ∷ []; ends = held.old.ends.items ++ end ∷ [] }) }
{
    held.clauses.push(clause)?;
    held.ends.push(end)?;
    Ok(())
}

/// The clause ends, and waits for the end of the match.
fn end_clause(alloc: Global, work: &mut Work<'_>, at: Place) -> Result<(), Memory>
    ensures stands { (env : List Atom) → Stands (state_of env work.old) → OnOk result (Stands (state_of env work.new)) }
    ensures comes { (env : List Atom) → OnOk result (Comes (ends_clause_of at) (state_of env work.old) (Given tt) (state_of env work.new)) }
{
    let unit = at_hand(&work.unit)?;
    let end = unit.here.flow(alloc)?;
    let block = close_block(work)?;
    let mut held = last_taken(&mut work.matches)?;
    let patterns = take_patterns(alloc, &mut held);
    finish(&mut held, clause_of(patterns, block.stmts, at), end)?;
    work.matches.push(held)?;
    Ok(())
}

/// `1|2 => { .. }`: the clause with the patterns so far and the last block ends ("Match statement"). What is known at its end is kept,
/// which costs by the variables that are seen.
pub fn ends_clause<T: Types>(checker: &mut Checker<'_, T>, at: Place)
    requires { Holds (T.atoms checker.old.types) checker.old.names.now checker.old.work }
    ensures holds { Holds (T.atoms checker.new.types) checker.new.names.now checker.new.work }
    ensures names { checker.new.names.now ≡ checker.old.names.now }
    ensures met { Runs (meets T.passes checker.old.names.now) (one (EndsClause at)) (going (T.atoms checker.old.types) checker.old.work) (going (T.atoms checker.new.types) checker.new.work) }
{
    if has_stopped(&checker.work) {
        return;
    }
    let made = end_clause(checker.alloc, &mut checker.work, at);
    note_made(&checker.types, &mut checker.work, made);
}
