//! Tests of types.
#![tactic(auto, using(check_work::proofs::Noting::meeting))]

ghost use Rattle.std.specs.Prelude.{◌≡◌, IfOk, IfSome, OnOk, Ok as Given, Some as There, length, option_map};
ghost use Rattle.std.specs.Option.{option_copied};
ghost use Rattle.checks.specs.Checks.{Comes};
ghost use Rattle.descriptors.specs.Steps.{AreOwnTypes};
ghost use Rattle.needs.specs.Needs.{Runs};
ghost use Rattle.typed_tree.specs.Listed.{one};
ghost use Rattle.expr_needs.specs.ExprTable.{read_expr};
ghost use Rattle.expr_needs.specs.Needs.{Tests};
ghost use Rattle.check_words.specs.Meets.{meets};
ghost use Rattle.check_words.specs.Seen.{variable_named as variable_in};
ghost use Rattle.check_words.specs.Sharing.{SameFlow};
ghost use Rattle.check_words.specs.Stands.{FlowBelow, SharedBelow, Stands, WaysBelow};
ghost use Rattle.check_words.specs.State.{State, shared_now as shared_now_of, with_type as with_type_of};
ghost use Rattle.check_words.specs.Values.{tests as tests_of, ways_if, ways_of_test as ways_of_test_of};
ghost use Rattle.check_words.specs.Words.{flow_now};
ghost use Rattle.check_work.specs.Views.{Holds, flow_of, going, state_of, ways_of};
ghost use Rattle.needs_of_values.specs.Tested.{ComesToWays};

use crate::reading::name_of;
use bal_base::{Fault, Memory, Name, Place, Stop};
use bal_tree::{Expr, QualifiedName};
use check_kinds::{kind_shared, narrowed};
use check_work::{
    Checker, Here, Ways, Work, at_hand, find_variable, gather, has_stopped, last_taken, note, taken,
};
use descriptors::OwnTypes;
use expr_needs::Kind;
use flow_narrowing::{Flow, Variable, VariableList};
use std::alloc::Global;
use type_model::Types;
use typed_tree::{SharedTy, StrictForm};

/// The type that the variable has here.
fn shared_now(v: &Variable) -> &SharedTy
    ensures { result.now ≡ shared_now_of v.now }
{
    match &v.narrowed {
        Some(t) => t,
        None => &v.declared,
    }
}

/// The variable for which the name stands.
fn variable_named<'a>(variables: &'a [Variable], name: &QualifiedName) -> Option<&'a Variable>
    ensures { option_copied result ≡ variable_in variables.now name.now }
{
    match &name.prefix {
        None => find_variable(variables, &name.word.name),
        Some(_) => None,
    }
}

/// What is known, where the variable with the name has this type.
fn with_type(alloc: Global, flow: &Flow, name: &Name, t: SharedTy) -> Result<Flow, Memory>
    ensures { IfOk result (SameFlow (with_type_of name.now (There t) flow.now)) }
{
    let mut here = Here {
        variables: Vec::new(alloc),
        reached: false,
    };
    let _nothing = here.enter(alloc, flow)?;
    here.retype(name, Some(t));
    Ok(Flow {
        variables: VariableList::of(here.variables),
        reached: here.reached,
    })
}

/// What is known where the variable has the one type, and where it has the other one.
fn by_types(
    alloc: Global,
    here: &Here,
    name: &Name,
    yes: SharedTy,
    no: SharedTy,
) -> Result<Ways, Memory>
    ensures yes { IfOk result (λ w. SameFlow (with_type_of name.now (There yes) (flow_of here.now)) w.yes) }
    ensures no { IfOk result (λ w. SameFlow (with_type_of name.now (There no) (flow_of here.now)) w.no) }
{
    let flow = here.flow(alloc)?;
    let yes = with_type(alloc, &flow, name, yes)?;
    let no = with_type(alloc, &flow, name, no)?;
    Ok(Ways { yes, no })
}

/// What a test of what the name stands for says of variables.
fn ways_of_name<T: Types>(
    alloc: Global,
    types: &mut T,
    here: &Here,
    name: &QualifiedName,
    t: &SharedTy,
    at: Place,
) -> Result<Option<Ways>, Stop<Fault>>
    requires flow { FlowBelow (length (T.atoms types.old)) (flow_of here.now) }
    requires wanted { SharedBelow (length (T.atoms types.old)) t.now }
    ensures atoms { T.atoms types.new ≡ T.atoms types.old }
    ensures below { IfOk result (λ w. IfSome (option_map ways_of w) (WaysBelow (length (T.atoms types.old)))) }
    ensures comes { (s : State) → s.atoms ≡ T.atoms types.old → Comes flow_now s (Given (flow_of here.now)) s → ComesToWays (ways_if T.passes name.now (variable_in here.now.variables.items name.now) t.now at) s result }
{
    let Some(v) = variable_named(here.variables.as_slice(), name) else {
        return Ok(None);
    };
    let (yes, no) = narrowed(alloc, types, shared_now(v), t, at)?;
    let ways = by_types(alloc, here, &name.word.name, yes, no)?;
    Ok(Some(ways))
}

/// What a test says of variables.
fn ways_of_test<T: Types>(
    alloc: Global,
    types: &mut T,
    here: &Here,
    name: Option<&QualifiedName>,
    t: &SharedTy,
    at: Place,
) -> Result<Option<Ways>, Stop<Fault>>
    requires flow { FlowBelow (length (T.atoms types.old)) (flow_of here.now) }
    requires wanted { SharedBelow (length (T.atoms types.old)) t.now }
    ensures atoms { T.atoms types.new ≡ T.atoms types.old }
    ensures below { IfOk result (λ w. IfSome (option_map ways_of w) (WaysBelow (length (T.atoms types.old)))) }
    ensures comes { (s : State) → s.atoms ≡ T.atoms types.old → Comes flow_now s (Given (flow_of here.now)) s → ComesToWays (ways_of_test_of T.passes (option_copied name.entry) t.now at) s result }
{
    match name {
        Some(name) => ways_of_name(alloc, types, here, name, t, at),
        None => Ok(None),
    }
}

/// The last part is tested for what is wanted.
fn test<T: Types>(
    alloc: Global,
    types: &mut T,
    own: &OwnTypes,
    work: &mut Work<'_>,
    name: Option<&QualifiedName>,
    at: Place,
) -> Result<(), Stop<Fault>>
    requires own { AreOwnTypes (T.atoms types.old) own.now }
    requires stands { Stands (state_of (T.atoms types.old) work.old) }
    ensures atoms { T.atoms types.new ≡ T.atoms types.old }
    ensures stands { OnOk result (Stands (state_of (T.atoms types.old) work.new)) }
    ensures comes { Comes (tests_of T.passes (option_copied name.entry) at) (state_of (T.atoms types.old) work.old) result (state_of (T.atoms types.old) work.new) }
{
    let mut want = last_taken(&mut work.wants)?;
    let t = taken(&mut want)?;
    let unit = at_hand(&work.unit)?;
    let ways = ways_of_test(alloc, types, &unit.here, name, &t, at)?;
    let ty = kind_shared(alloc, own, Kind::Truth)?;
    gather(&mut work.found, StrictForm::Is(t), 1, ty, at)?;
    work.ways = ways;
    Ok(())
}

/// Whether the last part, which is this expression, is of the wanted type (Ballerina specification, section 6.29). Where it is a variable
/// of the unit the type that the variable has is narrowed where the test holds and where it doesn't, which costs four questions of the
/// decider at most, and by the variables that are seen; `TypeLimit` at the place where one is too large.
pub fn tests<T: Types>(checker: &mut Checker<'_, T>, operand: &Expr, at: Place)
    requires { Holds (T.atoms checker.old.types) checker.old.names.now checker.old.work }
    ensures holds { Holds (T.atoms checker.new.types) checker.new.names.now checker.new.work }
    ensures names { checker.new.names.now ≡ checker.old.names.now }
    ensures met { Runs (meets T.passes checker.old.names.now) (one (Tests (read_expr operand.now).name at)) (going (T.atoms checker.old.types) checker.old.work) (going (T.atoms checker.new.types) checker.new.work) }
{
    if has_stopped(&checker.work) {
        return;
    }
    let name = name_of(operand);
    let answer = test(
        checker.alloc,
        &mut checker.types,
        &checker.names.own,
        &mut checker.work,
        name,
        at,
    );
    note(&checker.types, &mut checker.work, answer);
}
