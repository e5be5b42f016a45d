//! Laws of answers. These calls do nothing: their clauses are laws.
ghost use Rattle.check_answers.specs.Laws.{ActionsAgreeAlways, BranchesAgreeAlways, CallsAgreeAlways, ConstructorsAgreeAlways, LinesAgreeAlways, MadeAtomsAgreeAlways, MatchesAgreeAlways, MembersAgreeAlways, NamesAgreeAlways, PackagesAgreeAlways, AllLinesAgreeAlways, StatementsAgreeAlways, TwinsOfAtoms, UnitsAgreeAlways, UpdatesAgreeAlways, ValuesAgreeAlways};

use type_model::Types;

/// A type has the same shapes over atoms that are twins, one by one.
pub fn types_stay_twins()
    ensures { TwinsOfAtoms }
{}

/// Of literals, operators, conditions and what is wanted: from states that are twins two runs of each need give states that are twins, or refuse with one fault, but for a limit that
/// either may meet.
pub fn values_agree<T: Types>()
    ensures { ValuesAgreeAlways T.passes }
{}

/// Of reads and stores of members: from states that are twins two runs of each need give states that are twins, or refuse with one fault, but for a limit that
/// either may meet.
pub fn members_agree<T: Types>()
    ensures { MembersAgreeAlways T.passes }
{}

/// Of constructors, but for those that make atoms: from states that are twins two runs of each need give states that are twins, or refuse with one fault, but for a limit that
/// either may meet.
pub fn constructors_agree<T: Types>()
    ensures { ConstructorsAgreeAlways T.passes }
{}

/// Of statements, but for assignments with an operator, branches and loops: from states that are twins two runs of each need give states that are twins, or refuse with one fault, but for a limit that
/// either may meet.
pub fn statements_agree<T: Types>()
    ensures { StatementsAgreeAlways T.passes }
{}

/// Of branches and loops: from states that are twins two runs of each need give states that are twins, or refuse with one fault, but for a limit that
/// either may meet.
pub fn branches_agree<T: Types>()
    ensures { BranchesAgreeAlways T.passes }
{}

/// Of calls and anonymous functions, but for those that add atoms: from states that are twins two runs of each need give states that are twins, or refuse with one fault, but for a limit that
/// either may meet.
pub fn calls_agree<T: Types>()
    ensures { CallsAgreeAlways T.passes }
{}

/// Of messages, and of waits for one of several workers: from states that are twins two runs of each need give states that are twins, or refuse with one fault, but for a limit that
/// either may meet.
pub fn actions_agree<T: Types>()
    ensures { ActionsAgreeAlways T.passes }
{}

/// Of lists, mappings and errors that are made, of anonymous functions, of calls, of calls that are started, of waits for several and of what takes the rest of arguments, with their atoms: from states that are twins two runs of each need give states that are twins, or refuse with one fault, but for a limit that
/// either may meet.
pub fn made_atoms_agree<T: Types>()
    ensures { MadeAtomsAgreeAlways T.passes }
{}

/// Of names as values, in calls and in waits: from states that are twins two runs of each need give states that are twins, or refuse with one fault, but for a limit that
/// either may meet.
pub fn names_agree<T: Types>()
    ensures { NamesAgreeAlways T.passes }
{}

/// Of assignments with an operator: from states that are twins two runs of each need give states that are twins, or refuse with one fault, but for a limit that
/// either may meet.
pub fn updates_agree<T: Types>()
    ensures { UpdatesAgreeAlways T.passes }
{}

/// Of matches: from states that are twins two runs of each need give states that are twins, or refuse with one fault, but for a limit that
/// either may meet.
pub fn matches_agree<T: Types>()
    ensures { MatchesAgreeAlways T.passes }
{}

/// Of files, modules, their variables, functions that end, parameters and workers: from states that are twins two runs of each need give states that are twins, or refuse with one fault, but for a limit that
/// either may meet.
pub fn units_agree<T: Types>()
    ensures { UnitsAgreeAlways T.passes }
{}

/// Needs one behind another: where two runs of each of them come to the same, two runs of all do.
pub fn lines_agree<T: Types>()
    ensures { LinesAgreeAlways T.passes }
{}

/// Any needs one behind another: two runs of all come to the same.
pub fn all_lines_agree<T: Types>()
    ensures { AllLinesAgreeAlways T.passes }
{}

/// Two runs over a package from the same atoms come to the same typed package but for how its types are written, or refuse with one code at
/// one place, but for a limit that either may meet: nothing else can be the case.
pub fn packages_agree<T: Types>()
    ensures { PackagesAgreeAlways T.passes }
{}
