//! A checker, as whoever meets all needs.
#![tactic(auto)]

ghost use Rattle.type_model.specs.Defined.{IsEnv};
ghost use Rattle.descriptors.specs.declared.names.Names.{Names as NamesOf};
ghost use Rattle.check_words.specs.State.{State as StateOf};
ghost use Rattle.all_needs.specs.Named.{going_of, meaning_of, stands_over};

use crate::{actions, calls, loops, members, operators, statements, structures, units, values};
use check_work::Checker;
use need_values::{
    ActionNeed, CallNeed, LoopNeed, Meets, MemberNeed, OperatorNeed, StmtNeed, StructureNeed,
    UnitNeed, ValueNeed,
};
use type_model::Types;

/// A checker that meets every need of expressions, statements and packages.
pub struct Checking<'a, T> {
    pub checker: Checker<'a, T>,
}

/// The atoms are an environment, as `TypeEnv` keeps it. It does nothing else.
fn is_env<T: Types>(types: &T)
    ensures { IsEnv (T.atoms types.now) }
{
    types.env().defs();
}

impl<T: Types> Meets for Checking<'_, T> {
    ghost State = { NamesOf × StateOf };

    ghost meaning = { meaning_of T.passes };

    ghost going = { λ c. going_of (T.atoms c.checker.types) c.checker.names.now c.checker.work };

    ghost stands = { λ c. stands_over (T.atoms c.checker.types) c.checker.names.now c.checker.work };

    fn values(&mut self, need: ValueNeed<'_>) {
        values::meet(&mut self.checker, need);
        is_env(&self.checker.types)
    }

    fn operators(&mut self, need: OperatorNeed) {
        operators::meet(&mut self.checker, need);
        is_env(&self.checker.types)
    }

    fn members(&mut self, need: MemberNeed<'_>) {
        members::meet(&mut self.checker, need);
        is_env(&self.checker.types)
    }

    fn structures(&mut self, need: StructureNeed<'_>) {
        structures::meet(&mut self.checker, need);
        is_env(&self.checker.types)
    }

    fn calls(&mut self, need: CallNeed<'_>) {
        calls::meet(&mut self.checker, need);
        is_env(&self.checker.types)
    }

    fn units(&mut self, need: UnitNeed<'_>) {
        units::meet(&mut self.checker, need);
        is_env(&self.checker.types)
    }

    fn actions(&mut self, need: ActionNeed<'_>) {
        actions::meet(&mut self.checker, need);
        is_env(&self.checker.types)
    }

    fn statements(&mut self, need: StmtNeed<'_>) {
        statements::meet(&mut self.checker, need);
        is_env(&self.checker.types)
    }

    fn loops(&mut self, need: LoopNeed<'_>) {
        loops::meet(&mut self.checker, need);
        is_env(&self.checker.types)
    }
}
