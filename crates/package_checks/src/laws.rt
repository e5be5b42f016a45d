//! The law of checked packages. The call does nothing: its clauses are the law.
ghost use Rattle.package_checks.specs.Laws.{IsCheckedByNeeds, IsRefusedByFirstNeed};

use type_model::Types;

/// A package is checked exactly where each of its needs is met, one behind another, and what is found then is its typed package. It is
/// refused exactly with the fault of the first need that is refused, whatever the needs behind it are. So says any `Types` of the questions
/// that pass a limit.
pub fn packages_are_checked_need_by_need<T: Types>()
    ensures checked { IsCheckedByNeeds T.passes }
    ensures refused { IsRefusedByFirstNeed T.passes }
{}
