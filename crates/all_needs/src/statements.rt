//! Needs of declarations, assignments, blocks and what ends them, met.
#![tactic(auto)]

ghost use Rattle.std.specs.Prelude.{◌≡◌};
ghost use Rattle.needs.specs.Needs.{Runs};
ghost use Rattle.typed_tree.specs.Listed.{one};
ghost use Rattle.need_values.specs.Meant.{stmt_need};
ghost use Rattle.check_words.specs.Meets.{meets};
ghost use Rattle.check_work.specs.Views.{Holds, going};

use check_work::Checker;
use need_values::StmtNeed;
use type_model::Types;

/// Meets a need of declarations, assignments, blocks and what ends them, by the call that has it. It costs what that call costs.
pub(crate) fn meet<T: Types>(checker: &mut Checker<'_, T>, need: StmtNeed<'_>)
    requires { Holds (T.atoms checker.old.types) checker.old.names.now checker.old.work }
    ensures holds { Holds (T.atoms checker.new.types) checker.new.names.now checker.new.work }
    ensures names { checker.new.names.now ≡ checker.old.names.now }
    ensures met { Runs (meets T.passes checker.old.names.now) (one (stmt_need need.entry)) (going (T.atoms checker.old.types) checker.old.work) (going (T.atoms checker.new.types) checker.new.work) }
{
    match need {
        StmtNeed::IsNew(name) => needs_of_assignments::is_new(checker, name),
        StmtNeed::Declares(name, is_final, around, at) => needs_of_assignments::declares(
            checker, name, is_final, around, at,
        ),
        StmtNeed::IsAssignable(name) => needs_of_assignments::is_assignable(checker, name),
        StmtNeed::Assigns(name, at) => needs_of_assignments::assigns(checker, name, at),
        StmtNeed::ReadsName(name) => needs_of_assignments::reads_name(checker, name),
        StmtNeed::UpdatesName(name, op, at) => needs_of_assignments::updates_name(
            checker, name, op, at,
        ),
        StmtNeed::Stops => needs_of_statements::stops(checker),
        StmtNeed::Returns(at) => needs_of_statements::returns(checker, at),
        StmtNeed::ReturnsNil(at) => needs_of_statements::returns_nil(checker, at),
        StmtNeed::Breaks(at) => needs_of_statements::breaks(checker, at),
        StmtNeed::Continues(at) => needs_of_statements::continues(checker, at),
        StmtNeed::BeginsBlock => needs_of_statements::begins_block(checker),
        StmtNeed::EndsBlock => needs_of_statements::ends_block(checker),
        StmtNeed::MakesBlock(at) => needs_of_statements::makes_block(checker, at),
        StmtNeed::MakesIf(at) => needs_of_statements::makes_if(checker, at),
        StmtNeed::Heads(body) => needs_of_statements::heads(checker, body),
        StmtNeed::OpensLoop => needs_of_statements::opens_loop(checker),
        StmtNeed::MakesWhile(leaves, at) => needs_of_statements::makes_while(checker, leaves, at),
    }
}
