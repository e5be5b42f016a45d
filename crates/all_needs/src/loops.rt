//! Needs of loops over lists and ranges, and matches, met.
#![tactic(auto)]

ghost use Rattle.std.specs.Prelude.{◌≡◌};
ghost use Rattle.needs.specs.Needs.{Runs};
ghost use Rattle.typed_tree.specs.Listed.{one};
ghost use Rattle.need_values.specs.Meant.{loop_need};
ghost use Rattle.check_words.specs.Meets.{meets};
ghost use Rattle.check_work.specs.Views.{Holds, going};

use check_work::Checker;
use need_values::LoopNeed;
use type_model::Types;

/// Meets a need of loops over lists and ranges, and matches, by the call that has it. It costs what that call costs.
pub(crate) fn meet<T: Types>(checker: &mut Checker<'_, T>, need: LoopNeed<'_>)
    requires { Holds (T.atoms checker.old.types) checker.old.names.now checker.old.work }
    ensures holds { Holds (T.atoms checker.new.types) checker.new.names.now checker.new.work }
    ensures names { checker.new.names.now ≡ checker.old.names.now }
    ensures met { Runs (meets T.passes checker.old.names.now) (one (loop_need need.entry)) (going (T.atoms checker.old.types) checker.old.work) (going (T.atoms checker.new.types) checker.new.work) }
{
    match need {
        LoopNeed::IsItemOfLoop(at) => needs_of_loops::is_item_of_loop(checker, at),
        LoopNeed::WidensItem(at) => needs_of_loops::widens_item(checker, at),
        LoopNeed::IsCounter(at) => needs_of_loops::is_counter(checker, at),
        LoopNeed::WantsCounter => needs_of_loops::wants_counter(checker),
        LoopNeed::HasItem(name, body) => needs_of_loops::has_item(checker, name, body),
        LoopNeed::MakesForeach(at) => needs_of_loops::makes_foreach(checker, at),
        LoopNeed::MakesRange(op, at) => needs_of_loops::makes_range(checker, op, at),
        LoopNeed::BeginsMatch(value) => needs_of_matches::begins_match(checker, value),
        LoopNeed::HasPattern(pattern) => needs_of_matches::has_pattern(checker, pattern),
        LoopNeed::BeginsClause(any) => needs_of_matches::begins_clause(checker, any),
        LoopNeed::EndsClause(at) => needs_of_matches::ends_clause(checker, at),
        LoopNeed::MakesMatch(any, at) => needs_of_matches::makes_match(checker, any, at),
    }
}
