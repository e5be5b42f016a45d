//! The anonymous functions of expressions.
#![tactic(auto, using(crate::proofs::Noting::noting))]

ghost use Rattle.std.specs.Prelude.{◌≡◌, map};
ghost use Rattle.typed_tree.specs.Listed.{joined, run};
ghost use Rattle.typed_tree.specs.Units.{OfAnonymous, expr_units, source_units, target_units};
ghost use Rattle.package_units.specs.Held.{tree_of};
ghost use Rattle.package_units.specs.Noted.{noted, noted_of};

use crate::held::HeldUnit;
use crate::noted::Noted;
use lower_stmt::Body;
use typed_tree::{AnonymousFunction, Source, TypedExpr, UpdateTarget};

/// An anonymous function with its value.
fn anonymous<'a>(f: &'a AnonymousFunction, value: &'a TypedExpr) -> HeldUnit<'a>
    ensures { tree_of result ≡ record { unit = f.now.unit; body = OfAnonymous value.now } }
{
    HeldUnit {
        unit: &f.unit,
        body: Body::Anonymous(value),
        captured: f.captured.as_slice().len(),
    }
}

/// Notes the anonymous functions of an expression.
#[cycle(expr)]
pub fn expr<'a>(n: &mut Noted<'a>, e: &'a TypedExpr)
    ensures { noted_of n.new ≡ run noted (expr_units e.now) (noted_of n.old) }
{
    match e {
        TypedExpr::Strict { operands, .. } => exprs(n, operands),
        TypedExpr::Implied { .. } | TypedExpr::Local { .. } => {}
        TypedExpr::And { left, right, .. } | TypedExpr::Or { left, right, .. } => {
            expr(n, left);
            expr(n, right);
        }
        TypedExpr::Conditional {
            condition,
            middle,
            last,
            ..
        } => {
            expr(n, condition);
            expr(n, middle);
            expr(n, last);
        }
        TypedExpr::Elvis { left, right, .. } => {
            expr(n, left);
            expr(n, right);
        }
        TypedExpr::Check { operand, .. } | TypedExpr::Trap { operand, .. } => expr(n, operand),
        TypedExpr::Function {
            function,
            value,
            ..
        } => {
            n.note(anonymous(function, value));
            expr(n, value);
        }
        TypedExpr::Parens { inner, .. } => expr(n, inner),
    }
}

/// Notes the anonymous functions of expressions.
#[cycle(expr)]
pub fn exprs<'a>(n: &mut Noted<'a>, es: &'a [TypedExpr])
    ensures { noted_of n.new ≡ run noted (joined (map expr_units es.now)) (noted_of n.old) }
{
    for e in es {
        expr(n, e);
    }
}

/// Notes the anonymous functions of what a statement with an operator assigns to.
pub fn target<'a>(n: &mut Noted<'a>, t: &'a UpdateTarget)
    ensures { noted_of n.new ≡ run noted (target_units t.now) (noted_of n.old) }
{
    match t {
        UpdateTarget::Local { .. } | UpdateTarget::Variable(_) => {}
        UpdateTarget::Member { container, key, .. } => {
            expr(n, container);
            expr(n, key);
        }
    }
}

/// Notes the anonymous functions of what a loop goes through.
pub fn source<'a>(n: &mut Noted<'a>, s: &'a Source)
    ensures { noted_of n.new ≡ run noted (source_units s.now) (noted_of n.old) }
{
    match s {
        Source::Range { from, to, .. } => {
            expr(n, from);
            expr(n, to);
        }
        Source::List { list, .. } => expr(n, list),
    }
}
