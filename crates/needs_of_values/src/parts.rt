//! Literals, and parts in parentheses.
#![tactic(auto, using(check_work::proofs::Noting::meeting))]

ghost use Rattle.std.specs.Prelude.{◌≡◌, ℕ, IfOk, List, OnOk, Ok as Given};
ghost use Rattle.checks.specs.Checks.{Comes};
ghost use Rattle.needs.specs.Needs.{Runs};
ghost use Rattle.type_model.specs.declared.atoms.AtomDef.{AtomDef as Atom};
ghost use Rattle.typed_tree.specs.Listed.{one};
ghost use Rattle.expr_needs.specs.Needs.{Encloses, GivesLiteral};
ghost use Rattle.check_words.specs.Meets.{meets};
ghost use Rattle.check_words.specs.Stands.{SharedBelow, Stands};
ghost use Rattle.check_words.specs.Values.{SingleOf, encloses as encloses_of, gives_literal as gives_literal_of};
ghost use Rattle.check_work.specs.Views.{Holds, going, state_of};

use bal_base::{Memory, Place};
use bal_tree::Literal;
use check_kinds::single_type;
use check_words::{constant_of, parens};
use check_work::{Checker, Work, gather, has_stopped, note_made, shared, take_one};
use operations::Constant;
use std::alloc::Global;
use std::rc::Rc;
use tree_places::place_of_literal;
use type_model::Types;
use typed_tree::{SharedTy, StrictForm};

/// The type that has this value alone.
fn single(alloc: Global, value: &Constant) -> Result<SharedTy, Memory>
    ensures is { IfOk result (λ t. (env : List Atom) → SingleOf value.now env t.value) }
    ensures below { IfOk result (λ t. (n : ℕ) → SharedBelow n t) }
{
    Ok(Rc::new(alloc, single_type(alloc, value))?)
}

/// A part more, which is the literal.
fn give_literal(alloc: Global, work: &mut Work<'_>, literal: &Literal) -> Result<(), Memory>
    ensures stands { (env : List Atom) → Stands (state_of env work.old) → OnOk result (Stands (state_of env work.new)) }
    ensures comes { (env : List Atom) → OnOk result (Comes (gives_literal_of literal.now) (state_of env work.old) (Given tt) (state_of env work.new)) }
{
    let value = constant_of(literal);
    let ty = single(alloc, &value)?;
    let form = StrictForm::Literal(value);
    gather(&mut work.found, form, 0, ty, place_of_literal(literal))?;
    work.ways = None;
    Ok(())
}

/// A literal, whose type has its value alone (Ballerina specification, section 6.4). It costs nothing that grows.
pub fn gives_literal<T: Types>(checker: &mut Checker<'_, T>, literal: &Literal)
    requires { Holds (T.atoms checker.old.types) checker.old.names.now checker.old.work }
    ensures holds { Holds (T.atoms checker.new.types) checker.new.names.now checker.new.work }
    ensures names { checker.new.names.now ≡ checker.old.names.now }
    ensures met { Runs (meets T.passes checker.old.names.now) (one (GivesLiteral literal.now)) (going (T.atoms checker.old.types) checker.old.work) (going (T.atoms checker.new.types) checker.new.work) }
{
    if has_stopped(&checker.work) {
        return;
    }
    let made = give_literal(checker.alloc, &mut checker.work, literal);
    note_made(&checker.types, &mut checker.work, made);
}

/// The last part stands in parentheses, and says what it says of variables.
fn enclose(alloc: Global, work: &mut Work<'_>, at: Place) -> Result<(), Memory>
    ensures stands { (env : List Atom) → Stands (state_of env work.old) → OnOk result (Stands (state_of env work.new)) }
    ensures comes { (env : List Atom) → OnOk result (Comes (encloses_of at) (state_of env work.old) (Given tt) (state_of env work.new)) }
{
    let part = take_one(&mut work.found)?;
    let ty = shared(part.ty())?;
    let whole = parens(alloc, part, ty, at)?;
    work.found.push(whole)?;
    Ok(())
}

/// The last part stands in parentheses.
pub fn encloses<T: Types>(checker: &mut Checker<'_, T>, at: Place)
    requires { Holds (T.atoms checker.old.types) checker.old.names.now checker.old.work }
    ensures holds { Holds (T.atoms checker.new.types) checker.new.names.now checker.new.work }
    ensures names { checker.new.names.now ≡ checker.old.names.now }
    ensures met { Runs (meets T.passes checker.old.names.now) (one (Encloses at)) (going (T.atoms checker.old.types) checker.old.work) (going (T.atoms checker.new.types) checker.new.work) }
{
    if has_stopped(&checker.work) {
        return;
    }
    let made = enclose(checker.alloc, &mut checker.work, at);
    note_made(&checker.types, &mut checker.work, made);
}
