//! Packages, checked.
#![tactic(auto)]

ghost use Rattle.std.specs.Prelude.{IfOk, List, length};
ghost use Rattle.checks.specs.Checks.{Comes, Outcome};
ghost use Rattle.type_model.specs.declared.atoms.AtomDef.{AtomDef};
ghost use Rattle.typed_tree.specs.declared.package.TypedPackage.{TypedPackage as TypedPackageOf};
ghost use Rattle.check_answers.specs.Answers.{AgreesWith};
ghost use Rattle.descriptors.specs.Steps.{AreNames};
ghost use Rattle.needs.specs.Needs.{Runs};
ghost use Rattle.stmt_needs.specs.PackageTable.{package_needs};
ghost use Rattle.isolation_check.specs.Typed.{AreTyped};
ghost use Rattle.package_checks.specs.Checked.{checked_package};
ghost use Rattle.all_needs.specs.Named.{going_of, meaning_of, stands_over};

use crate::beginning::first_work;
use crate::ending::answer;
use all_needs::Checking;
use bal_base::{Fault, Stop};
use bal_tree::Package;
use check_work::Checker;
use descriptors::Names;
use need_values::{ByNeed, Meets};
use std::alloc::Global;
use stmt_needs::package as meet_package;
use type_model::Types;
use typed_tree::TypedPackage;

/// All that the package needs is met, one need behind another, until the work stops, whoever meets needs.
fn meet_all<W: Meets>(all: &mut ByNeed<W>, package: &Package)
    requires { W.stands all.old.meets }
    ensures stands { W.stands all.new.meets }
    ensures met { Runs W.meaning (package_needs «package».now) (W.going all.old.meets) (W.going all.new.meets) }
{
    meet_package(all, package)
}

/// The same by a checker.
fn meet<T: Types>(all: &mut ByNeed<Checking<'_, T>>, package: &Package)
    requires { stands_over (T.atoms all.old.meets.checker.types) all.old.meets.checker.names.now all.old.meets.checker.work }
    ensures stands { stands_over (T.atoms all.new.meets.checker.types) all.new.meets.checker.names.now all.new.meets.checker.work }
    ensures met { Runs (meaning_of T.passes) (package_needs «package».now) (going_of (T.atoms all.old.meets.checker.types) all.old.meets.checker.names.now all.old.meets.checker.work) (going_of (T.atoms all.new.meets.checker.types) all.new.meets.checker.names.now all.new.meets.checker.work) }
{
    meet_all(all, package)
}

/// What came of a check: the types, which are given back, and the typed package or why there is none.
pub struct Checked<T> {
    pub types: T,
    pub answer: Result<TypedPackage, Stop<Fault>>,
}

/// Checks all bodies of a package, in the order of modules, files and text (Ballerina specification, sections 6 to 8): the typed package, or
/// the first fault. It takes the types, to which atoms are added, and gives them back. The first fault is that of the first need that isn't
/// met; 207 and 208 come only at a question or an atom that a need names. Nothing else can be the case: whatever
/// else the check may come to is the same typed package, but for how its types are written, or the same code at the same place, but
/// for 207 and 208. What the check of isolation looks at in the typed package has types that name atoms that are there, so that it may be
/// asked of it.
///
/// It steps once through the trees, and asks what the needs ask; what is known of variables is copied where a way is left that is entered
/// again. Frames grow with how deep the trees are nested.
pub fn check_package<T: Types>(
    alloc: Global,
    types: T,
    names: &Names,
    package: &Package,
) -> Checked<T>
    requires { AreNames (T.atoms types) names.now }
    ensures comes { Comes (checked_package T.passes names.now «package».now) (T.atoms types) result.answer (T.atoms result.types) }
    ensures only { (o : Outcome TypedPackageOf) (behind : List AtomDef) → checked_package T.passes names.now «package».now (T.atoms types) o behind → AgreesWith o behind result.answer (T.atoms result.types) }
    ensures names { IfOk result.answer (λ _. AreNames (T.atoms result.types) names.now) }
    ensures typed { IfOk result.answer (AreTyped (length (T.atoms result.types))) }
{
    let _atoms = types.env().defs();
    let work = match first_work(alloc, package) {
        Ok(work) => work,
        Err(_) => {
            return Checked {
                types,
                answer: Err(Stop::Memory),
            };
        }
    };
    let checker = Checker {
        alloc,
        types,
        names,
        work,
    };
    let mut all = ByNeed {
        meets: Checking { checker },
    };
    meet(&mut all, package);
    let ByNeed { meets } = all;
    let Checking { checker } = meets;
    let Checker {
        alloc: _,
        types,
        names: _,
        work,
    } = checker;
    Checked {
        types,
        answer: answer(alloc, names, package.main, work),
    }
}
