//! Patterns of clauses, which are constants.
#![tactic(auto, using(check_work::proofs::Noting::meeting))]

ghost use Rattle.std.specs.Prelude.{◌≡◌, List, OnOk, Ok as Given};
ghost use Rattle.checks.specs.Checks.{Comes};
ghost use Rattle.needs.specs.Needs.{Runs};
ghost use Rattle.type_model.specs.declared.atoms.AtomDef.{AtomDef as Atom};
ghost use Rattle.typed_tree.specs.Listed.{one};
ghost use Rattle.expr_needs.specs.Needs.{HasPattern};
ghost use Rattle.check_words.specs.Branches.{adds_pattern, has_pattern as has_pattern_of};
ghost use Rattle.check_words.specs.Meets.{meets};
ghost use Rattle.check_words.specs.Stands.{Stands};
ghost use Rattle.check_words.specs.State.{State};
ghost use Rattle.check_work.specs.Views.{Holds, going, state_of};
ghost use Rattle.seen_names.specs.Views.{seen_of};
ghost use Rattle.needs_of_matches.specs.Patterns.{meaning_constant, named_constant as named_constant_of, named_pattern, seen_constant as seen_constant_of};

use bal_base::{Fault, FaultCode, Kept, Memory, Place, Stop};
use bal_tree::{Pattern, QualifiedName};
use check_words::{place_of_value, value_constant};
use check_work::{Checker, Work, at_hand, has_stopped, last_taken, note};
use descriptors::{Meaning, Names, lift};
use operations::Constant;
use seen_names::{Seen, seen_as, single_value};
use type_model::Types;
use typed_tree::TypedPattern;

/// A pattern more of the clause to come.
fn put_pattern(work: &mut Work<'_>, value: Option<Constant>, at: Place) -> Result<(), Memory>
    ensures stands { (env : List Atom) → Stands (state_of env work.old) → OnOk result (Stands (state_of env work.new)) }
    ensures comes { (env : List Atom) → OnOk result (Comes (adds_pattern value at) (state_of env work.old) (Given tt) (state_of env work.new)) }
{
    let mut held = last_taken(&mut work.matches)?;
    held.patterns.push(TypedPattern { value, at })?;
    work.matches.push(held)?;
    Ok(())
}

/// A fault at the place, which shows nothing.
fn refused(code: FaultCode, at: Place) -> Stop<Fault>
    ensures { result ≡ Stop.Fault (record { code = code; at = Some at; kept = Kept.Nothing }) }
{
    Stop::Fault(Fault {
        code,
        at: Some(at),
        kept: Kept::Nothing,
    })
}

/// The constant that a module defines, and else `Unknown` at the place.
fn defined_constant(meaning: &Meaning, at: Place) -> Result<Constant, Stop<Fault>>
    ensures { (s : State) → Comes (meaning_constant meaning.now at) s result s }
{
    match meaning {
        Meaning::Constant(t) => match single_value(t) {
            Some(c) => Ok(c),
            None => Err(Stop::Memory),
        },
        Meaning::TypeName(_) => Err(refused(FaultCode::Unknown, at)),
        Meaning::Variable { .. } => Err(refused(FaultCode::Unknown, at)),
        Meaning::Function(_) => Err(refused(FaultCode::Unknown, at)),
    }
}

/// The constant that is seen under a name.
///
/// - `NameAsValue` at the place: it is a worker.
/// - `Unknown` at the place: it is no constant. What else the lookup of a name refuses.
fn seen_constant(seen: Seen<'_, '_>, at: Place) -> Result<Constant, Stop<Fault>>
    ensures { (s : State) → Comes (seen_constant_of (seen_of seen.entry) at) s result s }
{
    match seen {
        Seen::Variable(_) => Err(refused(FaultCode::Unknown, at)),
        Seen::Worker(_) => Err(refused(FaultCode::NameAsValue, at)),
        Seen::Constant(c) => Ok(c),
        Seen::Library(_) => Err(refused(FaultCode::Unknown, at)),
        Seen::Meaning(meaning) => defined_constant(meaning, at),
        Seen::Nothing(code) => Err(refused(code, at)),
    }
}

/// The constant that the name stands for.
fn named_constant(
    names: &Names,
    work: &Work<'_>,
    q: &QualifiedName,
) -> Result<Constant, Stop<Fault>>
    ensures { (env : List Atom) → Comes (named_constant_of names.now q.now) (state_of env work.now) result (state_of env work.now) }
{
    match at_hand(&work.unit) {
        Ok(unit) => seen_constant(
            seen_as(names, &work.site, unit.here.variables.as_slice(), q),
            q.at,
        ),
        Err(Memory) => Err(Stop::Memory),
    }
}

/// A constant more among the patterns of the clause to come, or `_`.
fn add_constant(work: &mut Work<'_>, value: Option<Constant>, at: Place) -> Result<(), Stop<Fault>>
    ensures stands { (env : List Atom) → Stands (state_of env work.old) → OnOk result (Stands (state_of env work.new)) }
    ensures comes { (env : List Atom) → Comes (adds_pattern value at) (state_of env work.old) result (state_of env work.new) }
{
    lift(put_pattern(work, value, at))
}

/// The constant that the name stands for, among the patterns of the clause to come.
fn add_named(names: &Names, work: &mut Work<'_>, q: &QualifiedName) -> Result<(), Stop<Fault>>
    ensures stands { (env : List Atom) → Stands (state_of env work.old) → OnOk result (Stands (state_of env work.new)) }
    ensures comes { (env : List Atom) → Comes (named_pattern names.now q.now) (state_of env work.old) result (state_of env work.new) }
{
    match named_constant(names, work, q) {
        Ok(c) => add_constant(work, Some(c), q.at),
        Err(stop) => Err(stop),
    }
}

/// A pattern more of the clause to come.
fn add_pattern(names: &Names, work: &mut Work<'_>, pattern: &Pattern) -> Result<(), Stop<Fault>>
    ensures stands { (env : List Atom) → Stands (state_of env work.old) → OnOk result (Stands (state_of env work.new)) }
    ensures comes { (env : List Atom) → Comes (has_pattern_of names.now pattern.now) (state_of env work.old) result (state_of env work.new) }
{
    match pattern {
        Pattern::Any { at } => add_constant(work, None, *at),
        Pattern::Value(value) => {
            let at = place_of_value(value);
            let c = value_constant(value);
            add_constant(work, Some(c), at)
        }
        Pattern::Name(q) => add_named(names, work, q),
    }
}

/// A pattern of a clause: `_`, a constant value or the name of a constant ("Match statement").
///
/// - `NameAsValue` at the name: it is a worker of the function.
/// - `Unknown` at the name: it is no constant. What else the lookup of a name refuses.
pub fn has_pattern<T: Types>(checker: &mut Checker<'_, T>, pattern: &Pattern)
    requires { Holds (T.atoms checker.old.types) checker.old.names.now checker.old.work }
    ensures holds { Holds (T.atoms checker.new.types) checker.new.names.now checker.new.work }
    ensures names { checker.new.names.now ≡ checker.old.names.now }
    ensures met { Runs (meets T.passes checker.old.names.now) (one (HasPattern pattern.now)) (going (T.atoms checker.old.types) checker.old.work) (going (T.atoms checker.new.types) checker.new.work) }
{
    if has_stopped(&checker.work) {
        return;
    }
    let answer = add_pattern(checker.names, &mut checker.work, pattern);
    note(&checker.types, &mut checker.work, answer);
}
