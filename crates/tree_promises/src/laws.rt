//! Laws of well-typed trees. These calls do nothing: their clauses are laws.
ghost use Rattle.tree_promises.specs.KnownOf.{JoinsFollow, TestsAgree};
ghost use Rattle.tree_promises.specs.Laws.{ExprsGoByLayers, FlowsAreWays, MadeExprsAreTyped, MadeExprsKeepFlows, MadeLoopsAreTyped, MadeLoopsKeepFlows, MadeMatchesKeepFlows, MadeStatementsAreTyped, MadeStatementsKeepFlows, StmtsGoByLayers, TypesAreWays};

use eval_model::AnyWays;

/// The types of operands are points of ways, and so is what is known of slots: where nothing is done a way goes on from what is there to
/// all that it is below, and the ends of traps are where they guard. So a way through a well-typed body is one through all that a frame
/// does for it, as it takes the body apart.
pub fn promises_are_ways()
    ensures types { TypesAreWays }
    ensures flows { FlowsAreWays }
{}

/// A way by the layer of an expression or of a statement is a way through it, whatever points are.
pub fn ways_go_by_layers<W: AnyWays>()
    ensures expressions { ExprsGoByLayers W.ways }
    ensures statements { StmtsGoByLayers W.ways }
{}

/// An expression that is made of typed parts is typed, where these are what its construct asks of them: each of the eleven constructs, and
/// each operator.
pub fn made_expressions_are_typed()
    ensures { MadeExprsAreTyped }
{}

/// And so is a statement, each of the eleven, in a loop or outside; `break` and `continue` only in a loop. Typed statements one behind another are typed.
pub fn made_statements_are_typed()
    ensures simple { MadeStatementsAreTyped }
    ensures loops { MadeLoopsAreTyped }
{}

/// What is known behind an expression, and where it is true and where it is false, follows from what is known before it and from what its
/// parts leave: a test narrows its variable, `!`, `&&`, `||` and `?:` put ways together, `check` and `?:` keep their operand in a slot of
/// their own, and a trap lands where all is known that was known before it.
pub fn made_expressions_keep_flows()
    ensures { MadeExprsKeepFlows }
{}

/// What is known behind a statement follows from what is known before it and from what its parts leave: a store says that the slot holds a value, ways of branches meet, at the head of a loop is known what each
/// turn leaves, each pattern of a match narrows what is kept and the variable that holds the same, and behind a `return`, a `panic`, a
/// `break` or a `continue` nothing is reached.
pub fn made_statements_keep_flows()
    ensures simple { MadeStatementsKeepFlows }
    ensures matches { MadeMatchesKeepFlows }
    ensures loops { MadeLoopsKeepFlows }
{}

/// What a checker knows where two ways of the same variables meet follows from what it knows on each; and the types that a test leaves of a
/// variable are those by which ways narrow it.
pub fn checked_flows_agree()
    ensures joins { JoinsFollow }
    ensures tests { TestsAgree }
{}
