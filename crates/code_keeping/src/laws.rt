//! Laws of steps. These calls do nothing: their clauses are laws.
ghost use Rattle.code_keeping.specs.Laws.{AwaitedComes, CallsKeep, EndsKeep, FlushesKeep, GoesOnByItself, GoodHeapsAreServed, MessagesKeep, NeverStuck, NoTrappedReceive, NoTrappedSend, NumbersAndTextsAreDone, OperandsAreOfKinds, PanicsAreDone, ReachedAreGood, ReturnsKeep, SendsKeep, SettlingKeeps, StartsWell, StrandsOfCodeHold, StrictOperationsCome, StrictOperationsKeep, TestsAreDone, VariablesAreDone};

use op_model::Meaning;

/// The state in which a run of well-typed code begins is good.
pub fn runs_start_well()
    ensures { StartsWell }
{}

/// A frame of well-typed code that fits its place fits where it goes on by itself, and where it has to, it does.
pub fn goes_on_by_itself()
    ensures fits { GoesOnByItself }
    ensures comes { NeverStuck }
{}

/// Operands in types all of whose shapes are of some kinds are of one of these kinds.
pub fn operands_are_of_kinds()
    ensures { OperandsAreOfKinds }
{}

/// What a frame asks for fits, whatever comes, where it asks for an operation that takes all its operands, as far as the
/// operation keeps its row; a panic that is caught lands where its trap says. And something comes, where something comes of
/// the row.
pub fn strict_operations_keep<N: Meaning>()
    ensures rows { StrictOperationsKeep N.answers }
    ensures comes { StrictOperationsCome N.answers }
{}

/// So it is with operations on ints, strings and booleans, comparisons, tests and casts.
pub fn operations_on_values_are_done<N: Meaning>()
    ensures numbers_and_texts { NumbersAndTextsAreDone N.answers }
    ensures tests { TestsAreDone N.answers }
{}

/// And so with ticks, module variables, slots that are loaded, and panics.
pub fn operations_of_frames_are_done<N: Meaning>()
    ensures variables { VariablesAreDone N.answers }
    ensures panics { PanicsAreDone N.answers }
{}

/// What a frame asks for fits at a call and at a return, also at the return of a worker.
pub fn calls_and_returns_keep<N: Meaning>()
    ensures calls { CallsKeep N.answers }
    ensures returns { ReturnsKeep N.answers }
{}

/// A frame that awaits a result fits with it, and where it catches a panic.
pub fn awaited_results_come()
    ensures { AwaitedComes }
{}

/// A send and a receive keep the activations good: of a message, and of a sender that has ended. A flush of a peer that
/// has ended comes to what fits behind it.
pub fn messages_keep()
    ensures sends { SendsKeep }
    ensures messages { MessagesKeep }
    ensures ends { EndsKeep }
    ensures flushes { FlushesKeep }
{}

/// A table of tests for the code serves each good heap.
pub fn good_heaps_are_served()
    ensures { GoodHeapsAreServed }
{}

/// When those whose needs are met are ready, all that is shared is good.
pub fn settling_keeps()
    ensures { SettlingKeeps }
{}

/// In well-typed code no message is received or sent behind a tick in the reach of a trap.
pub fn no_trapped_message()
    ensures receives { NoTrappedReceive }
    ensures sends { NoTrappedSend }
{}

/// Where steps of well-typed code keep what is good, what holds of the strands of machines holds of it, and each state that it
/// reaches is good.
pub fn strands_of_code_hold<N: Meaning>()
    ensures strands { StrandsOfCodeHold N.answers }
    ensures good { ReachedAreGood N.answers }
{}
