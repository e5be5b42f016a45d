//! Needs of constructors.

use bal_base::{Place, Text};
use bal_tree::{Expr, Member};
use expr_needs::Expected;

/// A need of constructors, as a value: a variant for each call of `MeetsExprs` and `MeetsStmts` that is about these.
pub enum StructureNeed<'t> {
    /// What is constructed of these items is chosen.
    ChoosesList(Expected, &'t [Expr], Place),
    /// What is constructed of these members is chosen.
    ChoosesMapping(Expected, &'t [Member], Place),
    /// The details of an error, or what a wait names, begin.
    BeginsKeys,
    /// A key more, which is a part.
    GivesKey(&'t Text, Place),
    /// A key more, which is no part.
    TakesKey(&'t Text, Place),
    /// The last part is a computed key.
    ComputesKey,
    /// The type of the next member of a list is wanted.
    ExpectsItem,
    /// The type of the member at the last key of a mapping is wanted.
    ExpectsMember,
    /// The last part is an item.
    IsItem(Place),
    /// The last part is a member.
    IsMember(Place),
    /// The last part is a detail.
    IsDetail(Place),
    /// There is no cause.
    LacksCause(Place),
    /// So many items make a list.
    MakesList(usize, Place),
    /// So many members make a mapping.
    MakesMapping(usize, Place),
    /// A message, a cause and so many details make an error.
    MakesError(usize, Place),
}
