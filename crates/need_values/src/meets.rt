//! Whoever meets needs that are handed about as values.
ghost use Rattle.needs.specs.Needs.{Runs};
ghost use Rattle.typed_tree.specs.Listed.{one};
ghost use Rattle.need_values.specs.Meant.{action_need, call_need, loop_need, member_need, operator_need, stmt_need, structure_need, unit_need, value_need};

use crate::actions::ActionNeed;
use crate::calls::CallNeed;
use crate::loops::LoopNeed;
use crate::members::MemberNeed;
use crate::operators::OperatorNeed;
use crate::statements::StmtNeed;
use crate::structures::StructureNeed;
use crate::units::UnitNeed;
use crate::values::ValueNeed;

/// Whoever meets needs, a call for all of a topic. It is what `MeetsExprs` and `MeetsStmts` together are, with a call a topic in place of
/// a call a need.
pub trait Meets {
    ghost use Rattle.needs.specs.Needs.{Going};
    ghost use Rattle.checks.specs.Checks.{Check};
    ghost use Rattle.expr_needs.specs.Needs.{Need};

    /// What needs read and change.
    ghost State: { Type 0 };

    /// What it means that a need is met.
    ghost meaning: { Need → Check State (Unit {0}) };

    /// The state, and why the work stopped there, if it did.
    ghost going: { Self → Going State };

    /// What holds between any two needs.
    ghost stands: { Self → Type 0 };

    /// A need of names, literals, conditions, and what is wanted is met.
    fn values(&mut self, need: ValueNeed<'_>)
        requires { stands self.old }
        ensures stands { stands self.new }
        ensures met { Runs meaning (one (value_need need.entry)) (going self.old) (going self.new) };

    /// A need of operators, casts, `check` and `trap` is met.
    fn operators(&mut self, need: OperatorNeed)
        requires { stands self.old }
        ensures stands { stands self.new }
        ensures met { Runs meaning (one (operator_need need)) (going self.old) (going self.new) };

    /// A need of members, read and stored is met.
    fn members(&mut self, need: MemberNeed<'_>)
        requires { stands self.old }
        ensures stands { stands self.new }
        ensures met { Runs meaning (one (member_need need.entry)) (going self.old) (going self.new) };

    /// A need of constructors is met.
    fn structures(&mut self, need: StructureNeed<'_>)
        requires { stands self.old }
        ensures stands { stands self.new }
        ensures met { Runs meaning (one (structure_need need.entry)) (going self.old) (going self.new) };

    /// A need of calls is met.
    fn calls(&mut self, need: CallNeed<'_>)
        requires { stands self.old }
        ensures stands { stands self.new }
        ensures met { Runs meaning (one (call_need need.entry)) (going self.old) (going self.new) };

    /// A need of functions, workers, initial values and modules is met.
    fn units(&mut self, need: UnitNeed<'_>)
        requires { stands self.old }
        ensures stands { stands self.new }
        ensures met { Runs meaning (one (unit_need need.entry)) (going self.old) (going self.new) };

    /// A need of messages and waits is met.
    fn actions(&mut self, need: ActionNeed<'_>)
        requires { stands self.old }
        ensures stands { stands self.new }
        ensures met { Runs meaning (one (action_need need.entry)) (going self.old) (going self.new) };

    /// A need of declarations, assignments, blocks and what ends them is met.
    fn statements(&mut self, need: StmtNeed<'_>)
        requires { stands self.old }
        ensures stands { stands self.new }
        ensures met { Runs meaning (one (stmt_need need.entry)) (going self.old) (going self.new) };

    /// A need of loops over lists and ranges, and matches is met.
    fn loops(&mut self, need: LoopNeed<'_>)
        requires { stands self.old }
        ensures stands { stands self.new }
        ensures met { Runs meaning (one (loop_need need.entry)) (going self.old) (going self.new) };
}
