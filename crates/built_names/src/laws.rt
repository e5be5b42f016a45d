//! The laws. These calls do nothing: their clauses are laws.
ghost use Rattle.built_names.specs.Leading.{BuiltNamesLead, BuiltRestsAreLists};

/// A variable that a name of a package stands for is the one of its number among the variables in the order of the text, and a function is one of those that the package defines.
pub fn built_names_lead()
    ensures { BuiltNamesLead }
{}

/// What takes the rest of a function's arguments is of the lists of its signature, also over atoms that come later.
pub fn built_rests_are_lists()
    ensures { BuiltRestsAreLists }
{}
