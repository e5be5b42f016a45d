//! Needs of messages and waits, met.
#![tactic(auto)]

ghost use Rattle.std.specs.Prelude.{◌≡◌};
ghost use Rattle.needs.specs.Needs.{Runs};
ghost use Rattle.typed_tree.specs.Listed.{one};
ghost use Rattle.need_values.specs.Meant.{action_need};
ghost use Rattle.check_words.specs.Meets.{meets};
ghost use Rattle.check_work.specs.Views.{Holds, going};

use check_work::Checker;
use need_values::ActionNeed;
use type_model::Types;

/// Meets a need of messages and waits, by the call that has it. It costs what that call costs.
pub(crate) fn meet<T: Types>(checker: &mut Checker<'_, T>, need: ActionNeed<'_>)
    requires { Holds (T.atoms checker.old.types) checker.old.names.now checker.old.work }
    ensures holds { Holds (T.atoms checker.new.types) checker.new.names.now checker.new.work }
    ensures names { checker.new.names.now ≡ checker.old.names.now }
    ensures met { Runs (meets T.passes checker.old.names.now) (one (action_need need.entry)) (going (T.atoms checker.old.types) checker.old.work) (going (T.atoms checker.new.types) checker.new.work) }
{
    match need {
        ActionNeed::Awaits(name) => needs_of_actions::awaits(checker, name),
        ActionNeed::WaitsForAny(names, at) => needs_of_actions::waits_for_any(checker, names, at),
        ActionNeed::WaitsForAll(members, at) => needs_of_actions::waits_for_all(
            checker, members, at,
        ),
        ActionNeed::Receives(expected, peer, at) => needs_of_actions::receives(
            checker, expected, peer, at,
        ),
        ActionNeed::Sends(peer, at) => needs_of_actions::sends(checker, peer, at),
        ActionNeed::SendsAndWaits(peer, at) => needs_of_actions::sends_and_waits(checker, peer, at),
        ActionNeed::Flushes(peer, at) => needs_of_actions::flushes(checker, peer, at),
    }
}
