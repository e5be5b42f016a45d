//! Needs of names, literals, conditions, and what is wanted, met.
#![tactic(auto)]

ghost use Rattle.std.specs.Prelude.{◌≡◌};
ghost use Rattle.needs.specs.Needs.{Runs};
ghost use Rattle.typed_tree.specs.Listed.{one};
ghost use Rattle.need_values.specs.Meant.{value_need};
ghost use Rattle.check_words.specs.Meets.{meets};
ghost use Rattle.check_work.specs.Views.{Holds, going};

use check_work::Checker;
use need_values::ValueNeed;
use type_model::Types;

/// Meets a need of names, literals, conditions, and what is wanted, by the call that has it. It costs what that call costs.
pub(crate) fn meet<T: Types>(checker: &mut Checker<'_, T>, need: ValueNeed<'_>)
    requires { Holds (T.atoms checker.old.types) checker.old.names.now checker.old.work }
    ensures holds { Holds (T.atoms checker.new.types) checker.new.names.now checker.new.work }
    ensures names { checker.new.names.now ≡ checker.old.names.now }
    ensures met { Runs (meets T.passes checker.old.names.now) (one (value_need need.entry)) (going (T.atoms checker.old.types) checker.old.work) (going (T.atoms checker.new.types) checker.new.work) }
{
    match need {
        ValueNeed::Fails(code, at) => needs_of_values::fails(checker, code, at),
        ValueNeed::IsWanted(at) => needs_of_values::is_wanted(checker, at),
        ValueNeed::Describes(tree) => needs_of_values::describes(checker, tree),
        ValueNeed::WantsErrorToo => needs_of_values::wants_error_too(checker),
        ValueNeed::DropsWant => needs_of_values::drops_want(checker),
        ValueNeed::GivesLiteral(literal) => needs_of_values::gives_literal(checker, literal),
        ValueNeed::GivesNamed(name) => needs_of_values::gives_named(checker, name),
        ValueNeed::Decides(at) => needs_of_values::decides(checker, at),
        ValueNeed::Splits(holds) => needs_of_values::splits(checker, holds),
        ValueNeed::Switches => needs_of_values::switches(checker),
        ValueNeed::Turns(at) => needs_of_values::turns(checker, at),
        ValueNeed::Conjoins(at) => needs_of_values::conjoins(checker, at),
        ValueNeed::Disjoins(at) => needs_of_values::disjoins(checker, at),
        ValueNeed::Chooses(at) => needs_of_values::chooses(checker, at),
        ValueNeed::FillsNil(at) => needs_of_values::fills_nil(checker, at),
        ValueNeed::Tests(operand, at) => needs_of_values::tests(checker, operand, at),
        ValueNeed::Encloses(at) => needs_of_values::encloses(checker, at),
        ValueNeed::Widens(at) => needs_of_values::widens(checker, at),
        ValueNeed::WantsResult => needs_of_values::wants_result(checker),
    }
}
