//! Needs of constructors, met.
#![tactic(auto)]

ghost use Rattle.std.specs.Prelude.{◌≡◌};
ghost use Rattle.needs.specs.Needs.{Runs};
ghost use Rattle.typed_tree.specs.Listed.{one};
ghost use Rattle.need_values.specs.Meant.{structure_need};
ghost use Rattle.check_words.specs.Meets.{meets};
ghost use Rattle.check_work.specs.Views.{Holds, going};

use check_work::Checker;
use need_values::StructureNeed;
use type_model::Types;

/// Meets a need of constructors, by the call that has it. It costs what that call costs.
pub(crate) fn meet<T: Types>(checker: &mut Checker<'_, T>, need: StructureNeed<'_>)
    requires { Holds (T.atoms checker.old.types) checker.old.names.now checker.old.work }
    ensures holds { Holds (T.atoms checker.new.types) checker.new.names.now checker.new.work }
    ensures names { checker.new.names.now ≡ checker.old.names.now }
    ensures met { Runs (meets T.passes checker.old.names.now) (one (structure_need need.entry)) (going (T.atoms checker.old.types) checker.old.work) (going (T.atoms checker.new.types) checker.new.work) }
{
    match need {
        StructureNeed::ChoosesList(expected, items, at) => needs_of_choices::chooses_list(
            checker, expected, items, at,
        ),
        StructureNeed::ChoosesMapping(expected, members, at) => needs_of_choices::chooses_mapping(
            checker, expected, members, at,
        ),
        StructureNeed::BeginsKeys => needs_of_structures::begins_keys(checker),
        StructureNeed::GivesKey(key, at) => needs_of_structures::gives_key(checker, key, at),
        StructureNeed::TakesKey(key, at) => needs_of_structures::takes_key(checker, key, at),
        StructureNeed::ComputesKey => needs_of_structures::computes_key(checker),
        StructureNeed::ExpectsItem => needs_of_structures::expects_item(checker),
        StructureNeed::ExpectsMember => needs_of_choices::expects_member(checker),
        StructureNeed::IsItem(at) => needs_of_structures::is_item(checker, at),
        StructureNeed::IsMember(at) => needs_of_choices::is_member(checker, at),
        StructureNeed::IsDetail(at) => needs_of_structures::is_detail(checker, at),
        StructureNeed::LacksCause(at) => needs_of_structures::lacks_cause(checker, at),
        StructureNeed::MakesList(count, at) => needs_of_structures::makes_list(checker, count, at),
        StructureNeed::MakesMapping(count, at) => needs_of_structures::makes_mapping(
            checker, count, at,
        ),
        StructureNeed::MakesError(count, at) => needs_of_structures::makes_error(
            checker, count, at,
        ),
    }
}
