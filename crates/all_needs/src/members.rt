//! Needs of members, read and stored, met.
#![tactic(auto)]

ghost use Rattle.std.specs.Prelude.{◌≡◌};
ghost use Rattle.needs.specs.Needs.{Runs};
ghost use Rattle.typed_tree.specs.Listed.{one};
ghost use Rattle.need_values.specs.Meant.{member_need};
ghost use Rattle.check_words.specs.Meets.{meets};
ghost use Rattle.check_work.specs.Views.{Holds, going};

use check_work::Checker;
use need_values::MemberNeed;
use type_model::Types;

/// Meets a need of members, read and stored, by the call that has it. It costs what that call costs.
pub(crate) fn meet<T: Types>(checker: &mut Checker<'_, T>, need: MemberNeed<'_>)
    requires { Holds (T.atoms checker.old.types) checker.old.names.now checker.old.work }
    ensures holds { Holds (T.atoms checker.new.types) checker.new.names.now checker.new.work }
    ensures names { checker.new.names.now ≡ checker.old.names.now }
    ensures met { Runs (meets T.passes checker.old.names.now) (one (member_need need.entry)) (going (T.atoms checker.old.types) checker.old.work) (going (T.atoms checker.new.types) checker.new.work) }
{
    match need {
        MemberNeed::IsAccessed(texts, at) => needs_of_members::is_accessed(checker, texts, at),
        MemberNeed::IsIndex(at) => needs_of_members::is_index(checker, at),
        MemberNeed::ReadsElement(at) => needs_of_members::reads_element(checker, at),
        MemberNeed::ReadsField(field, at) => needs_of_members::reads_field(checker, field, at),
        MemberNeed::ReadsOptional(field, at) => needs_of_members::reads_optional(
            checker, field, at,
        ),
        MemberNeed::HasField(field) => needs_of_members::has_field(checker, field),
        MemberNeed::ExpectsStored(at) => needs_of_members::expects_stored(checker, at),
        MemberNeed::Stores(at) => needs_of_members::stores(checker, at),
        MemberNeed::ReadsStored(at) => needs_of_members::reads_stored(checker, at),
        MemberNeed::ReadsStoredField(field, at) => needs_of_members::reads_stored_field(
            checker, field, at,
        ),
        MemberNeed::IsOperand(op, at) => needs_of_members::is_operand(checker, op, at),
        MemberNeed::UpdatesElement(op, at) => needs_of_members::updates_element(checker, op, at),
        MemberNeed::UpdatesField(field, op, at) => needs_of_members::updates_field(
            checker, field, op, at,
        ),
    }
}
