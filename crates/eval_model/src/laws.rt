//! Laws of typed trees. These calls do nothing: their clauses are laws.
ghost use Rattle.eval_model.specs.Laws.{ChoiceKeepsWays, EachTreeHasAWay, EvalKeepsWays, ExecKeepsWays, TreesRunOnce, TreesSettle, TreesStepOnce, TurnKeepsWays};
ghost use Rattle.eval_model.specs.Narrowed.{NarrowedReadsGoOn};

use op_model::Meaning;

/// What there may be between points of a way through a tree.
pub trait AnyWays {
    ghost use Rattle.eval_model.specs.Ways.{Ways};

    /// What a point is.
    ghost point: { Type 0 };

    ghost ways: { Ways point };
}

/// A state of typed trees has at most one next one, and by an order of picks one run at most, where the natives come to one
/// thing.
pub fn trees_have_one_next<N: Meaning>()
    ensures steps { TreesStepOnce N.answers }
    ensures runs { TreesRunOnce N.answers }
{}

/// Each frame of a typed tree comes by itself to what it asks: no loop goes on without a tick.
pub fn trees_settle()
    ensures { TreesSettle }
{}

/// A way through a tree is a way through what a frame does for it, as it takes the tree apart, whatever points are.
pub fn frames_keep_ways<W: AnyWays>()
    ensures expressions { EvalKeepsWays W.ways }
    ensures statements { ExecKeepsWays W.ways }
    ensures choices { ChoiceKeepsWays W.ways }
    ensures turns { TurnKeepsWays W.ways }
{}

/// There is a way through each construct, where everything is one.
pub fn each_tree_has_a_way()
    ensures { EachTreeHasAWay }
{}

/// A narrowed variable that holds a value of its narrower type is read by itself, with no operation that could fail.
pub fn narrowed_reads_go_on()
    ensures { NarrowedReadsGoOn }
{}
