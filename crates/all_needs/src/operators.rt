//! Needs of operators, casts, `check` and `trap`, met.
#![tactic(auto)]

ghost use Rattle.std.specs.Prelude.{◌≡◌};
ghost use Rattle.needs.specs.Needs.{Runs};
ghost use Rattle.typed_tree.specs.Listed.{one};
ghost use Rattle.need_values.specs.Meant.{operator_need};
ghost use Rattle.check_words.specs.Meets.{meets};
ghost use Rattle.check_work.specs.Views.{Holds, going};

use check_work::Checker;
use need_values::OperatorNeed;
use type_model::Types;

/// Meets a need of operators, casts, `check` and `trap`, by the call that has it. It costs what that call costs.
pub(crate) fn meet<T: Types>(checker: &mut Checker<'_, T>, need: OperatorNeed)
    requires { Holds (T.atoms checker.old.types) checker.old.names.now checker.old.work }
    ensures holds { Holds (T.atoms checker.new.types) checker.new.names.now checker.new.work }
    ensures names { checker.new.names.now ≡ checker.old.names.now }
    ensures met { Runs (meets T.passes checker.old.names.now) (one (operator_need need)) (going (T.atoms checker.old.types) checker.old.work) (going (T.atoms checker.new.types) checker.new.work) }
{
    match need {
        OperatorNeed::IsOf(kind, at) => needs_of_operators::is_of(checker, kind, at),
        OperatorNeed::Forms(op, count, kind, at) => needs_of_operators::forms(
            checker, op, count, kind, at,
        ),
        OperatorNeed::IsSort(at) => needs_of_operators::is_sort(checker, at),
        OperatorNeed::Adds(at) => needs_of_operators::adds(checker, at),
        OperatorNeed::Compares(op, at) => needs_of_operators::compares(checker, op, at),
        OperatorNeed::Casts(at) => needs_of_operators::casts(checker, at),
        OperatorNeed::Checks(at) => needs_of_operators::checks(checker, at),
        OperatorNeed::ChecksPanicking(at) => needs_of_operators::checks_panicking(checker, at),
        OperatorNeed::Traps(at) => needs_of_operators::traps(checker, at),
    }
}
