//! Needs beside those of operands: of operators by their family, and of what stands before the value of an anonymous function.
#![tactic(auto, using(needs::proofs::Running::running))]

ghost use Rattle.needs.specs.Needs.{Runs, in_turn};
ghost use Rattle.typed_tree.specs.Listed.{if_there, one, ◌&◌};
ghost use Rattle.expr_needs.specs.ExprTable.{parameter_needs, rest_needs, signature_needs};
ghost use Rattle.expr_needs.specs.Needs.{BeginsAnonymous};
ghost use Rattle.expr_needs.specs.Operators.{left_needs, made_of, prefix_needs, right_needs};

use crate::kind::Kind;
use crate::meets::MeetsExprs;
use crate::operators::Family;
use bal_base::Place;
use bal_tree::{Param, Params, PrefixOp, TypeTree};
use typed_tree::Operator;

/// What is needed of the operand behind a prefix, which stands at the first place, and of the whole.
pub fn prefixed<M: MeetsExprs>(work: &mut M, op: PrefixOp, operand: Place, at: Place)
    requires { M.stands work.old }
    ensures stands { M.stands work.new }
    ensures met { Runs M.meaning (prefix_needs op operand at) (M.going work.old) (M.going work.new) }
{
    match op {
        PrefixOp::Negate => {
            work.is_of(Kind::Integer, operand);
            work.forms(Operator::Negate, 1, Kind::Integer, at)
        }
        PrefixOp::Not => {
            work.is_of(Kind::Truth, operand);
            work.turns(at)
        }
        PrefixOp::Check => work.checks(at),
        PrefixOp::CheckPanic => work.checks_panicking(at),
    }
}

/// What is needed of the left operand before the right one.
pub fn left<M: MeetsExprs>(work: &mut M, family: Family, at: Place)
    requires { M.stands work.old }
    ensures stands { M.stands work.new }
    ensures met { Runs M.meaning (left_needs family at) (M.going work.old) (M.going work.new) }
{
    match family {
        Family::Arithmetic(_) => work.is_of(Kind::Integer, at),
        Family::Sum | Family::Order(_) => {
            work.is_of(Kind::IntOrText, at);
            work.decides(at)
        }
        Family::Equality(_) => work.is_of(Kind::Anydata, at),
        Family::Condition { holds } => {
            work.is_of(Kind::Truth, at);
            work.splits(holds)
        }
        Family::Identity(_) | Family::Elvis => {}
    }
}

/// What is needed of the right one.
pub fn right<M: MeetsExprs>(work: &mut M, family: Family, at: Place)
    requires { M.stands work.old }
    ensures stands { M.stands work.new }
    ensures met { Runs M.meaning (right_needs family at) (M.going work.old) (M.going work.new) }
{
    match family {
        Family::Arithmetic(_) => work.is_of(Kind::Integer, at),
        Family::Sum | Family::Order(_) => work.is_sort(at),
        Family::Equality(_) => work.is_of(Kind::Anydata, at),
        Family::Condition { .. } => work.is_of(Kind::Truth, at),
        Family::Identity(_) | Family::Elvis => {}
    }
}

/// What both make.
pub fn made<M: MeetsExprs>(work: &mut M, family: Family, at: Place)
    requires { M.stands work.old }
    ensures stands { M.stands work.new }
    ensures met { Runs M.meaning (one (made_of family at)) (M.going work.old) (M.going work.new) }
{
    match family {
        Family::Arithmetic(op) => work.forms(op, 2, Kind::Integer, at),
        Family::Sum => work.adds(at),
        Family::Order(op) => work.compares(op, at),
        Family::Equality(op) | Family::Identity(op) => work.forms(op, 2, Kind::Truth, at),
        Family::Condition { holds: true } => work.conjoins(at),
        Family::Condition { holds: false } => work.disjoins(at),
        Family::Elvis => work.fills_nil(at),
    }
}

/// An anonymous function begins, up to the type of its result.
pub fn begins_anonymous<M: MeetsExprs>(work: &mut M, params: &Params, gives: &TypeTree)
    requires { M.stands work.old }
    ensures stands { M.stands work.new }
    ensures met { Runs M.meaning (one BeginsAnonymous & signature_needs params.now gives.now) (M.going work.old) (M.going work.new) }
{
    work.begins_anonymous();
    parameters(work, &params.params);
    rest(work, &params.rest);
    work.describes(gives)
}

fn parameters<M: MeetsExprs>(work: &mut M, ps: &[Param])
    requires { M.stands work.old }
    ensures stands { M.stands work.new }
    ensures met { Runs M.meaning (in_turn parameter_needs ps.now) (M.going work.old) (M.going work.new) }
{
    for p in ps {
        parameter(work, p);
    }
}

fn parameter<M: MeetsExprs>(work: &mut M, p: &Param)
    requires { M.stands work.old }
    ensures stands { M.stands work.new }
    ensures met { Runs M.meaning (parameter_needs p.now) (M.going work.old) (M.going work.new) }
{
    work.describes(&p.ty);
    work.has_parameter(&p.name)
}

fn rest<M: MeetsExprs>(work: &mut M, p: &Option<Param>)
    requires { M.stands work.old }
    ensures stands { M.stands work.new }
    ensures met { Runs M.meaning (if_there rest_needs p.now) (M.going work.old) (M.going work.new) }
{
    match p {
        None => {}
        Some(p) => {
            work.describes(&p.ty);
            work.has_rest(&p.name)
        }
    }
}
