//! What of a body isolation looks at, found in one walk over it.
#![tactic(auto, using(crate::proofs::Growing::growing))]

ghost use Rattle.std.specs.Prelude.{◌≡◌, ◌++◌, ◌∷◌, [], false, map};
ghost use Rattle.typed_tree.specs.Listed.{joined};
ghost use Rattle.isolation_check.specs.Parts.{anonymous_parts, callee_parts, called_value, expr_parts, form_parts, noted};
ghost use Rattle.isolation_check.specs.inner.Views.{Grows, does_of};

use bal_base::Place;
use std::alloc::Global;
use typed_tree::{AnonymousFunction, Callee, Captured, SharedTy, StrictForm, TypedExpr};

/// What a part does.
#[derive(Clone, Copy)]
pub(crate) enum Deed<'a> {
    /// Reads a module variable, by its number.
    Reads(u32),
    /// Assigns a module variable.
    Stores,
    /// Calls or starts a function by its name.
    Calls(u32),
    /// Calls or starts a value of this type.
    CallsValue(&'a SharedTy),
    /// Makes an isolated function that captures these variables.
    Captures(&'a [Captured]),
}

/// A part, with the place of its first token.
#[derive(Clone, Copy)]
pub(crate) struct HeldPart<'a> {
    pub deed: Deed<'a>,
    pub at: Place,
}

/// What a part is noted for.
#[derive(Clone, Copy)]
pub(crate) enum Within {
    /// The body that is looked at.
    Body,
    /// An isolated anonymous function in it.
    Isolated,
    /// Nothing: it stands in an anonymous function that promises nothing.
    Free,
}

/// The parts that were found so far.
#[derive(Drop)]
pub(crate) struct Found<'a> {
    /// Those of the body itself.
    pub own: Vec<HeldPart<'a>>,
    /// Those of isolated anonymous functions in it.
    pub inside: Vec<HeldPart<'a>>,
    /// Whether there was no memory for one of them.
    pub full: bool,
}

/// A part more, or it is noted that there was no memory for it.
fn put<'a>(parts: &mut Vec<HeldPart<'a>>, part: HeldPart<'a>, full: &mut bool)
    ensures { full.new ≡ false → (full.old ≡ false) × (parts.new.items ≡ parts.old.items ++ part.entry ∷ []) }
{
    if parts.push(part).is_err() {
        *full = true;
    }
}

impl<'a> Found<'a> {
    /// Notes a part.
    pub(crate) fn note(&mut self, within: Within, deed: Deed<'a>, at: Place)
        ensures { Grows (noted within (does_of deed.entry) at) self.old self.new }
    {
        let part = HeldPart { deed, at };
        match within {
            Within::Body => put(&mut self.own, part, &mut self.full),
            Within::Isolated => put(&mut self.inside, part, &mut self.full),
            Within::Free => {}
        }
    }
}

/// What is called or started.
fn callee<'a>(
    found: &mut Found<'a>,
    callee: Callee,
    operands: &'a [TypedExpr],
    at: Place,
    within: Within,
)
    ensures { Grows (callee_parts callee operands.now at within) found.old found.new }
{
    match callee {
        Callee::Unit { unit, .. } => found.note(within, Deed::Calls(unit), at),
        Callee::Value => value(found, operands, at, within),
    }
}

/// The value that is called.
fn value<'a>(found: &mut Found<'a>, operands: &'a [TypedExpr], at: Place, within: Within)
    ensures { Grows (called_value operands.now at within) found.old found.new }
{
    if let Some(f) = operands.first() {
        found.note(within, Deed::CallsValue(f.ty()), at);
    }
}

/// What a construct does with the values of its operands.
fn form<'a>(
    found: &mut Found<'a>,
    form: &'a StrictForm,
    operands: &'a [TypedExpr],
    at: Place,
    within: Within,
)
    ensures { Grows (form_parts form.now operands.now at within) found.old found.new }
{
    match form {
        StrictForm::Variable(number) => found.note(within, Deed::Reads(*number), at),
        StrictForm::Call(called) | StrictForm::Start(called) => {
            callee(found, *called, operands, at, within);
        }
        StrictForm::Literal(_) | StrictForm::Constant(_) | StrictForm::FunctionName { .. } => {}
        StrictForm::Operator(_) | StrictForm::Is(_) | StrictForm::Cast(_) => {}
        StrictForm::List { .. } | StrictForm::Mapping { .. } | StrictForm::Error => {}
        StrictForm::Read(_) | StrictForm::Library { .. } => {}
        StrictForm::Send(_) | StrictForm::SyncSend(_) | StrictForm::Receive(_) => {}
        StrictForm::Flush(_) | StrictForm::WaitAny(_) | StrictForm::WaitAll { .. } => {}
    }
}

/// An anonymous function.
#[cycle(expr)]
fn anonymous<'a>(found: &mut Found<'a>, f: &'a AnonymousFunction, value: &'a TypedExpr, at: Place)
    ensures { Grows (anonymous_parts f.now (expr_parts value.now) at f.now.isolated) found.old found.new }
{
    if f.isolated {
        found.note(Within::Isolated, Deed::Captures(f.captured.as_slice()), at);
        expr(found, value, Within::Isolated);
    } else {
        expr(found, value, Within::Free);
    }
}

/// An expression or an action.
#[cycle(expr)]
pub(crate) fn expr<'a>(found: &mut Found<'a>, e: &'a TypedExpr, within: Within)
    ensures { Grows (expr_parts e.now within) found.old found.new }
{
    match e {
        TypedExpr::Strict {
            form: done,
            operands,
            at,
            ..
        } => {
            form(found, done, operands, *at, within);
            exprs(found, operands, within);
        }
        TypedExpr::Implied { .. } | TypedExpr::Local { .. } => {}
        TypedExpr::And { left, right, .. } | TypedExpr::Or { left, right, .. } => {
            expr(found, left, within);
            expr(found, right, within);
        }
        TypedExpr::Conditional {
            condition,
            middle,
            last,
            ..
        } => {
            expr(found, condition, within);
            expr(found, middle, within);
            expr(found, last, within);
        }
        TypedExpr::Elvis { left, right, .. } => {
            expr(found, left, within);
            expr(found, right, within);
        }
        TypedExpr::Check { operand, .. } | TypedExpr::Trap { operand, .. } => {
            expr(found, operand, within);
        }
        TypedExpr::Function {
            function,
            value,
            at,
            ..
        } => anonymous(found, function, value, *at),
        TypedExpr::Parens { inner, .. } => expr(found, inner, within),
    }
}

/// Expressions, one behind another.
#[cycle(expr)]
pub(crate) fn exprs<'a>(found: &mut Found<'a>, es: &'a [TypedExpr], within: Within)
    ensures { Grows (joined (map (λ e. expr_parts e within) es.now)) found.old found.new }
{
    for e in es {
        expr(found, e, within);
    }
}
