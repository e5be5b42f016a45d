//! Statements without statements in them: what they need is met, in the order of the text.
#![tactic(auto, using(needs::proofs::Running::running))]

ghost use Rattle.bal_tree.specs.declared.stmt.Target.TheVariants.{Name as NameTarget};
ghost use Rattle.needs.specs.Needs.{Runs};
ghost use Rattle.typed_tree.specs.Listed.{one, ◌&◌};
ghost use Rattle.expr_needs.specs.ActionTable.{read_rhs};
ghost use Rattle.expr_needs.specs.declared.kind.Kind.TheVariants.{AnyMapping};
ghost use Rattle.expr_needs.specs.ExprTable.{against, as_wanted, read_expr, read_postfix};
ghost use Rattle.expr_needs.specs.Needs.{Breaks, Continues, HasField, IsOperand};
ghost use Rattle.stmt_needs.specs.StmtTable.{assignment_needs, jump_needs, local_needs, counter_fits as needs_counter, item_fits as needs_item, loop_head_needs, loop_made, loop_type_needs, set_needs, stored_needs, through_needs, update_needs};

use crate::meets::MeetsStmts;
use bal_base::{FaultCode, Place};
use bal_tree::{AssignOp, Expr, LocalType, Postfix, QualifiedName, Range, Rhs, Target, Word};
use expr_needs::{
    Expected, Kind, accessed, indexed, of_kind, place, postfix, postfix_place, rhs, rhs_place,
    wanted_rhs,
};

/// The type, the name and the value of a declaration.
pub(crate) fn local<M: MeetsStmts>(work: &mut M, ty: &LocalType, name: &Word, value: &Rhs)
    requires { M.stands work.old }
    ensures stands { M.stands work.new }
    ensures met { Runs M.meaning (local_needs ty.now name.now (read_rhs value.now)) (M.going work.old) (M.going work.new) }
{
    match ty {
        LocalType::Type(t) => {
            work.describes(t);
            work.is_new(name);
            wanted_rhs(work, value)
        }
        LocalType::Var { .. } => {
            work.is_new(name);
            rhs(work, value, Expected::Nothing);
            work.widens(rhs_place(value))
        }
    }
}

/// An assignment.
pub(crate) fn assignment<M: MeetsStmts>(
    work: &mut M,
    target: &Target,
    op: AssignOp,
    value: &Rhs,
    at: Place,
)
    requires { M.stands work.old }
    ensures stands { M.stands work.new }
    ensures met { Runs M.meaning (assignment_needs op target.now (read_rhs value.now) at) (M.going work.old) (M.going work.new) }
{
    match op {
        AssignOp::Set => set(work, target, value, at),
        AssignOp::Add => update(work, target, AssignOp::Add, value, at),
        AssignOp::Subtract => update(work, target, AssignOp::Subtract, value, at),
        AssignOp::Multiply => update(work, target, AssignOp::Multiply, value, at),
        AssignOp::Divide => update(work, target, AssignOp::Divide, value, at),
    }
}

/// `a = e;`
fn set<M: MeetsStmts>(work: &mut M, target: &Target, value: &Rhs, at: Place)
    requires { M.stands work.old }
    ensures stands { M.stands work.new }
    ensures met { Runs M.meaning (set_needs target.now (read_rhs value.now) at) (M.going work.old) (M.going work.new) }
{
    match target {
        Target::Name(q) => {
            work.is_assignable(q);
            wanted_rhs(work, value);
            work.assigns(q, at)
        }
        Target::Index { .. } | Target::Field { .. } => {
            stored(work, target);
            wanted_rhs(work, value);
            work.stores(at)
        }
    }
}

/// `a += e;` and its kin.
fn update<M: MeetsStmts>(work: &mut M, target: &Target, op: AssignOp, value: &Rhs, at: Place)
    requires { M.stands work.old }
    ensures stands { M.stands work.new }
    ensures met { Runs M.meaning (update_needs target.now op (read_rhs value.now) at) (M.going work.old) (M.going work.new) }
{
    match target {
        Target::Name(q) => update_name(work, q, op, value, at),
        Target::Index { at: there, .. } => {
            stored(work, target);
            work.reads_stored(*there);
            operated(work, op, *there, value);
            work.updates_element(op, at)
        }
        Target::Field {
            field,
            at: there,
            ..
        } => {
            stored(work, target);
            work.reads_stored_field(field, *there);
            operated(work, op, *there, value);
            work.updates_field(field, op, at)
        }
    }
}

/// The same of a name.
fn update_name<M: MeetsStmts>(work: &mut M, q: &QualifiedName, op: AssignOp, value: &Rhs, at: Place)
    requires { M.stands work.old }
    ensures stands { M.stands work.new }
    ensures met { Runs M.meaning (update_needs (NameTarget q.now) op (read_rhs value.now) at) (M.going work.old) (M.going work.new) }
{
    work.is_assignable(q);
    work.reads_name(q);
    operated(work, op, q.at, value);
    work.updates_name(q, op, at)
}

/// What was read is the left operand of the assignment, and this is the right one.
fn operated<M: MeetsStmts>(work: &mut M, op: AssignOp, left: Place, value: &Rhs)
    requires { M.stands work.old }
    ensures stands { M.stands work.new }
    ensures met { Runs M.meaning (one (IsOperand op left) & as_wanted (read_rhs value.now)) (M.going work.old) (M.going work.new) }
{
    work.is_operand(op, left);
    wanted_rhs(work, value)
}

/// A member that is stored to, before its value.
fn stored<M: MeetsStmts>(work: &mut M, target: &Target)
    requires { M.stands work.old }
    ensures stands { M.stands work.new }
    ensures met { Runs M.meaning (stored_needs target.now) (M.going work.old) (M.going work.new) }
{
    match target {
        Target::Name(_) => {}
        Target::Index { base, index, at } => {
            accessed(work, false, base);
            indexed(work, index);
            work.expects_stored(*at)
        }
        Target::Field { base, field, at } => {
            fielded(work, base, field);
            work.expects_stored(*at)
        }
    }
}

/// The mapping whose field is stored to.
fn fielded<M: MeetsStmts>(work: &mut M, base: &Postfix, field: &Word)
    requires { M.stands work.old }
    ensures stands { M.stands work.new }
    ensures met { Runs M.meaning (against AnyMapping (read_postfix base.now) & one (HasField field.now)) (M.going work.old) (M.going work.new) }
{
    postfix(work, base, Expected::Nothing);
    work.is_of(Kind::AnyMapping, postfix_place(base));
    work.has_field(field)
}

/// `break;`
pub(crate) fn breaks<M: MeetsStmts>(work: &mut M, in_loop: bool, at: Place)
    requires { M.stands work.old }
    ensures stands { M.stands work.new }
    ensures met { Runs M.meaning (jump_needs (Breaks at) at in_loop) (M.going work.old) (M.going work.new) }
{
    match in_loop {
        true => work.breaks(at),
        false => work.fails(FaultCode::BadBreak, at),
    }
}

/// `continue;`
pub(crate) fn continues<M: MeetsStmts>(work: &mut M, in_loop: bool, at: Place)
    requires { M.stands work.old }
    ensures stands { M.stands work.new }
    ensures met { Runs M.meaning (jump_needs (Continues at) at in_loop) (M.going work.old) (M.going work.new) }
{
    match in_loop {
        true => work.continues(at),
        false => work.fails(FaultCode::BadBreak, at),
    }
}

/// The variable of a loop, and what the loop goes through.
pub(crate) fn loop_head<M: MeetsStmts>(
    work: &mut M,
    ty: &LocalType,
    name: &Word,
    from: &Expr,
    range: &Option<Range>,
)
    requires { M.stands work.old }
    ensures stands { M.stands work.new }
    ensures met { Runs M.meaning (loop_head_needs ty.now name.now (read_expr from.now) range.now) (M.going work.old) (M.going work.new) }
{
    loop_type(work, ty);
    work.is_new(name);
    through(work, ty, from, range)
}

fn loop_type<M: MeetsStmts>(work: &mut M, ty: &LocalType)
    requires { M.stands work.old }
    ensures stands { M.stands work.new }
    ensures met { Runs M.meaning (loop_type_needs ty.now) (M.going work.old) (M.going work.new) }
{
    match ty {
        LocalType::Type(t) => work.describes(t),
        LocalType::Var { .. } => {}
    }
}

/// What a loop goes through: a list, or the ints of a range.
fn through<M: MeetsStmts>(work: &mut M, ty: &LocalType, from: &Expr, range: &Option<Range>)
    requires { M.stands work.old }
    ensures stands { M.stands work.new }
    ensures met { Runs M.meaning (through_needs ty.now (read_expr from.now) range.now) (M.going work.old) (M.going work.new) }
{
    match range {
        None => {
            of_kind(work, Kind::AnyList, from);
            item_fits(work, ty, place(from))
        }
        Some(r) => {
            of_kind(work, Kind::Integer, from);
            of_kind(work, Kind::Integer, &r.end);
            counter_fits(work, ty, place(from))
        }
    }
}

fn item_fits<M: MeetsStmts>(work: &mut M, ty: &LocalType, at: Place)
    requires { M.stands work.old }
    ensures stands { M.stands work.new }
    ensures met { Runs M.meaning (one (needs_item ty.now at)) (M.going work.old) (M.going work.new) }
{
    match ty {
        LocalType::Type(_) => work.is_item_of_loop(at),
        LocalType::Var { .. } => work.widens_item(at),
    }
}

fn counter_fits<M: MeetsStmts>(work: &mut M, ty: &LocalType, at: Place)
    requires { M.stands work.old }
    ensures stands { M.stands work.new }
    ensures met { Runs M.meaning (one (needs_counter ty.now at)) (M.going work.old) (M.going work.new) }
{
    match ty {
        LocalType::Type(_) => work.is_counter(at),
        LocalType::Var { .. } => work.wants_counter(),
    }
}

/// The loop is made.
pub(crate) fn makes_loop<M: MeetsStmts>(work: &mut M, range: &Option<Range>, at: Place)
    requires { M.stands work.old }
    ensures stands { M.stands work.new }
    ensures met { Runs M.meaning (one (loop_made range.now at)) (M.going work.old) (M.going work.new) }
{
    match range {
        None => work.makes_foreach(at),
        Some(r) => work.makes_range(r.op, at),
    }
}
