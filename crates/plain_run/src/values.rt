//! Operations on one or two simple values.
ghost use Rattle.std.specs.Prelude.{◌≡◌, ◌↔◌, IfOk, IsTrue, Some, true};
ghost use Rattle.operations.specs.declared.operation.Operation.TheVariants as operation;
ghost use Rattle.value_model.specs.declared.value.Value.TheVariants.{Bool as Truth};
ghost use Rattle.plain_run.specs.declared.facts.ProgramFacts.{ProgramFacts as FactsOf};
ghost use Rattle.plain_run.specs.declared.held.Caller.{Caller as CallerOf};
ghost use Rattle.plain_run.specs.declared.effect.Effect.TheVariants.{Gives};
ghost use Rattle.plain_run.specs.declared.effect.Performed.TheVariants.{Done};
ghost use Rattle.plain_run.specs.Effects.{IsOneInt, IsPerformed, Stays};
ghost use Rattle.plain_run.specs.Values.{AreCompared, IntsCompare, TextsCompare, comparison_of};

use crate::effect::{Effect, Performed, lifted};
use crate::held::Common;
use crate::ints::negate;
use bal_base::{Memory, Text};
use std::alloc::Global;
use std::cmp::Ordering;
use value_model::Value;

/// An int, where the operand is one.
fn one_int(operands: &[Value]) -> Option<i64>
    ensures { IsOneInt operands.now result }
{
    match operands {
        [Value::Int(a)] => Some(*a),
        _ => None,
    }
}

/// `-a`
pub fn perform_negate(
    alloc: Global,
    operands: &[Value],
    common: &mut Common,
) -> Result<Performed, Memory>
    ensures row { IfOk result (λ done. (facts : FactsOf) (caller : CallerOf) → IsPerformed facts operation.Negate operands.now caller common.old common.new ⊥ done) }
    ensures stays { IfOk result (Stays common.old common.new) }
{
    match one_int(operands) {
        None => Ok(Performed::Stuck),
        Some(a) => {
            let came = negate(alloc, &mut common.world, a)?;
            Ok(Performed::Done(lifted(came)))
        }
    }
}

/// `!a`
pub fn perform_not(operands: &[Value], common: &Common) -> Performed
    ensures row { (facts : FactsOf) (caller : CallerOf) → IsPerformed facts operation.Not operands.now caller common.now common.now ⊥ result }
    ensures stays { Stays common.now common.now result }
{
    match operands {
        [Value::Bool(b)] => told(!*b),
        _ => Performed::Stuck,
    }
}

/// A boolean is given.
pub fn told(b: bool) -> Performed
    ensures { result ≡ Done (Gives (Some (Truth b))) }
{
    Performed::Done(Effect::Gives(Some(Value::Bool(b))))
}

/// How ints and strings are compared.
#[derive(Clone, Copy)]
pub enum Comparison {
    Less,
    LessEqual,
}

fn compare_ints(how: Comparison, a: i64, b: i64) -> bool
    ensures { IsTrue result ↔ IntsCompare how a b }
{
    match how {
        Comparison::Less => a < b,
        Comparison::LessEqual => a <= b,
    }
}

/// By code points.
fn compare_texts(how: Comparison, a: &Text, b: &Text) -> bool
    ensures { IsTrue result ↔ TextsCompare how a.now b.now }
{
    match how {
        Comparison::Less => a.cmp(b) == Ordering::Less,
        Comparison::LessEqual => a.cmp(b) != Ordering::Greater,
    }
}

/// How they compare, where they are two ints or two strings.
fn compared(how: Comparison, a: &Value, b: &Value) -> Option<bool>
    ensures { AreCompared how a.now b.now result }
{
    match a {
        Value::Int(x) => match b {
            Value::Int(y) => Some(compare_ints(how, *x, *y)),
            _ => None,
        },
        Value::Str(s) => match b {
            Value::Str(t) => Some(compare_texts(how, s, t)),
            _ => None,
        },
        _ => None,
    }
}

/// `a < b` and `a <= b`
pub fn perform_compare(how: Comparison, operands: &[Value], common: &Common) -> Performed
    ensures row { (facts : FactsOf) (caller : CallerOf) → IsPerformed facts (comparison_of how) operands.now caller common.now common.now ⊥ result }
    ensures stays { Stays common.now common.now result }
{
    match operands {
        [a, b] => match compared(how, a, b) {
            Some(holds) => told(holds),
            None => Performed::Stuck,
        },
        _ => Performed::Stuck,
    }
}

/// Whether the two are one and the same value.
pub fn is_same(a: &Value, b: &Value) -> bool
    ensures { IsTrue result ↔ (a.now ≡ b.now) }
{
    match a {
        Value::Nil => matches!(b, Value::Nil),
        Value::Bool(x) => matches!(b, Value::Bool(y) if x == y),
        Value::Int(x) => matches!(b, Value::Int(y) if x == y),
        Value::Str(s) => matches!(b, Value::Str(t) if s == t),
        Value::Struct(n) => matches!(b, Value::Struct(m) if n == m),
        Value::Error(n) => matches!(b, Value::Error(m) if n == m),
        Value::Function(n) => matches!(b, Value::Function(m) if n == m),
        Value::Future { strand, unit } => {
            matches!(b, Value::Future { strand: s, unit: u } if strand == s && unit == u)
        }
    }
}

/// `a === b`
pub fn perform_same(operands: &[Value], common: &Common) -> Performed
    ensures row { (facts : FactsOf) (caller : CallerOf) → IsPerformed facts operation.Same operands.now caller common.now common.now ⊥ result }
    ensures stays { Stays common.now common.now result }
{
    match operands {
        [a, b] => told(is_same(a, b)),
        _ => Performed::Stuck,
    }
}
