//! Laws of each step of well-typed code. These calls do nothing: their clauses are laws.
ghost use Rattle.code_keeping_all.specs.Laws.{CallsAreNotThere, CodeGoesOn, CodeIsKept, LibraryCallsAreDone, ReachedCodeIsGood, WellTypedCodeBegins, WellTypedCodeIsSafe};

use op_model::Meaning;

/// Where calls of the library are done, each step of well-typed code keeps what is good, each state that it reaches is good and has the
/// strands of a machine, and a frame that runs is never stuck. Nothing is asked of code that has no such calls. The fillers are those that
/// an exact table of tests has.
pub fn code_is_kept<N: Meaning>()
    ensures kept { CodeIsKept N.answers }
    ensures reached { ReachedCodeIsGood N.answers }
    ensures goes_on { CodeGoesOn N.answers }
    ensures without { CallsAreNotThere N.answers }
{}

/// Nothing is asked either of code whose library answers as its table says.
pub fn library_calls_are_done()
    ensures { LibraryCallsAreDone }
{}

/// So well-typed code is never stuck, whatever it calls: each state that its run reaches is good, and while a strand runs the operands of
/// its last frame are of the static types of its place, it goes on by itself or something comes of what it asks for, and the state has a
/// next one. And each run of well-typed code begins.
pub fn well_typed_code_is_safe()
    ensures safe { WellTypedCodeIsSafe }
    ensures begins { WellTypedCodeBegins }
{}
