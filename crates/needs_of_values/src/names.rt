//! Names as parts.
#![tactic(auto, using(check_work::proofs::Noting::meeting))]

ghost use Rattle.std.specs.Prelude.{◌≡◌};
ghost use Rattle.needs.specs.Needs.{Runs};
ghost use Rattle.typed_tree.specs.Listed.{one};
ghost use Rattle.expr_needs.specs.Needs.{GivesNamed};
ghost use Rattle.check_words.specs.Meets.{meets};
ghost use Rattle.check_work.specs.Views.{Holds, going};

use bal_tree::QualifiedName;
use check_work::{Checker, has_stopped, note};
use seen_names::give_named;
use type_model::Types;

/// What the name stands for (Ballerina specification, section 8.1). Refusals and cost are those of `give_named`.
pub fn gives_named<T: Types>(checker: &mut Checker<'_, T>, name: &QualifiedName)
    requires { Holds (T.atoms checker.old.types) checker.old.names.now checker.old.work }
    ensures holds { Holds (T.atoms checker.new.types) checker.new.names.now checker.new.work }
    ensures names { checker.new.names.now ≡ checker.old.names.now }
    ensures met { Runs (meets T.passes checker.old.names.now) (one (GivesNamed name.now)) (going (T.atoms checker.old.types) checker.old.work) (going (T.atoms checker.new.types) checker.new.work) }
{
    if has_stopped(&checker.work) {
        return;
    }
    let answer = give_named(checker.alloc, checker.names, &mut checker.work, name);
    note(&checker.types, &mut checker.work, answer);
}
