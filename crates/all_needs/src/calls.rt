//! Needs of calls, met.
#![tactic(auto)]

ghost use Rattle.std.specs.Prelude.{◌≡◌};
ghost use Rattle.needs.specs.Needs.{Runs};
ghost use Rattle.typed_tree.specs.Listed.{one};
ghost use Rattle.need_values.specs.Meant.{call_need};
ghost use Rattle.check_words.specs.Meets.{meets};
ghost use Rattle.check_work.specs.Views.{Holds, going};

use check_work::Checker;
use need_values::CallNeed;
use type_model::Types;

/// Meets a need of calls, by the call that has it. It costs what that call costs.
pub(crate) fn meet<T: Types>(checker: &mut Checker<'_, T>, need: CallNeed<'_>)
    requires { Holds (T.atoms checker.old.types) checker.old.names.now checker.old.work }
    ensures holds { Holds (T.atoms checker.new.types) checker.new.names.now checker.new.work }
    ensures names { checker.new.names.now ≡ checker.old.names.now }
    ensures met { Runs (meets T.passes checker.old.names.now) (one (call_need need.entry)) (going (T.atoms checker.old.types) checker.old.work) (going (T.atoms checker.new.types) checker.new.work) }
{
    match need {
        CallNeed::CallsNamed(started, name, count, at) => needs_of_calls::calls_named(
            checker, started, name, count, at,
        ),
        CallNeed::CallsValue => needs_of_calls::calls_value(checker),
        CallNeed::CallsMethod(method, count, at) => needs_of_calls::calls_method(
            checker, method, count, at,
        ),
        CallNeed::ExpectsArgument(at) => needs_of_made_calls::expects_argument(checker, at),
        CallNeed::IsArgument(at) => needs_of_calls::is_argument(checker, at),
        CallNeed::MakesCall(at) => needs_of_made_calls::makes_call(checker, at),
        CallNeed::Starts(here, at) => needs_of_made_calls::starts(checker, here, at),
        CallNeed::IsIgnorable(at) => needs_of_calls::is_ignorable(checker, at),
        CallNeed::Performs(form, count, at) => needs_of_calls::performs(checker, form, count, at),
    }
}
