//! Needs of functions, workers, initial values and modules, met.
#![tactic(auto)]

ghost use Rattle.std.specs.Prelude.{◌≡◌};
ghost use Rattle.needs.specs.Needs.{Runs};
ghost use Rattle.typed_tree.specs.Listed.{one};
ghost use Rattle.need_values.specs.Meant.{unit_need};
ghost use Rattle.check_words.specs.Meets.{meets};
ghost use Rattle.check_work.specs.Views.{Holds, going};

use check_work::Checker;
use need_values::UnitNeed;
use type_model::Types;

/// Meets a need of functions, workers, initial values and modules, by the call that has it. It costs what that call costs.
pub(crate) fn meet<T: Types>(checker: &mut Checker<'_, T>, need: UnitNeed<'_>)
    requires { Holds (T.atoms checker.old.types) checker.old.names.now checker.old.work }
    ensures holds { Holds (T.atoms checker.new.types) checker.new.names.now checker.new.work }
    ensures names { checker.new.names.now ≡ checker.old.names.now }
    ensures met { Runs (meets T.passes checker.old.names.now) (one (unit_need need.entry)) (going (T.atoms checker.old.types) checker.old.work) (going (T.atoms checker.new.types) checker.new.work) }
{
    match need {
        UnitNeed::BeginsAnonymous => needs_of_units::begins_anonymous(checker),
        UnitNeed::HasParameter(name) => needs_of_units::has_parameter(checker, name),
        UnitNeed::HasRest(name) => needs_of_functions::has_rest(checker, name),
        UnitNeed::BeginsValue(value) => needs_of_functions::begins_value(checker, value),
        UnitNeed::MakesAnonymous(isolated, at) => needs_of_functions::makes_anonymous(
            checker, isolated, at,
        ),
        UnitNeed::EntersFile(number, file) => needs_of_units::enters_file(checker, number, file),
        UnitNeed::BeginsFunction(d) => needs_of_functions::begins_function(checker, d),
        UnitNeed::NamesParameter(name, body) => needs_of_units::names_parameter(
            checker, name, body,
        ),
        UnitNeed::EndsFunction(d, close) => needs_of_units::ends_function(checker, d, close),
        UnitNeed::EndsValueFunction(d) => needs_of_units::ends_value_function(checker, d),
        UnitNeed::BeginsWorker(worker, number) => needs_of_units::begins_worker(
            checker, worker, number,
        ),
        UnitNeed::EndsWorker(worker) => needs_of_units::ends_worker(checker, worker),
        UnitNeed::BeginsInitial(d, kept) => needs_of_functions::begins_initial(checker, d, kept),
        UnitNeed::EndsInitial(d, kept) => needs_of_functions::ends_initial(checker, d, kept),
        UnitNeed::EndsModule(number) => needs_of_units::ends_module(checker, number),
        UnitNeed::IsConstant(d) => needs_of_functions::is_constant(checker, d),
    }
}
