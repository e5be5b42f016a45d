//! Types that are written from diagrams.
ghost use Rattle.std.specs.Prelude.{◌≡◌, ◌<◌, ◌≤◌, ℕ, List, IfOk, length};
ghost use Rattle.std.specs.Bool.{OnTrue};
ghost use Rattle.type_model.specs.declared.atoms.AtomDef.{AtomDef};
ghost use Rattle.type_model.specs.Defined.{NamesBelow};
ghost use Rattle.type_model.specs.Membership.{In};
ghost use Rattle.type_diagrams.specs.Conditions.{LooksAtKinds};
ghost use Rattle.type_diagrams.specs.Decisions.{IsNumber};
ghost use Rattle.type_diagrams.specs.Kinds.{the_mark};
ghost use Rattle.type_diagrams.specs.Tables.{AreNodes, DependBelow, IsDiagram, condition};
ghost use Rattle.type_diagrams.specs.Whole.{IsMetWhere};
ghost use Rattle.subtype_decider.specs.Writing.{AddsKind, IsBoth, IsDecisionType, IsEither, IsKindType, IsLiteralType, NeedsAtom, all_of, marked_of};

use bal_base::Memory;
use std::alloc::Global;
use type_diagrams::{Diagrams, FALSE, KINDS, Kind, MARK, Node, TRUE};
use type_model::{BasicSet, SemType};

/// A type with the shapes of a diagram, over all atoms over which the diagram looks, for each kind, at the
/// mark and at atoms of that kind alone. It is written from the diagram alone: types with equal conditions
/// have one diagram and give types that are written alike, as a type and its union with itself do.
///
/// It is a union of the simple shapes and of a decision for each kind, without what adds nothing. A set of
/// several kinds is written kind by kind: `readonly` becomes 11 sets. A type is a tree, so a node to which
/// several ways lead is written once for each of them: some 2^n times in the worst case, the exclusive or of n
/// atoms. The type and the calls are nested as deep as the longest way, which has no more nodes than there are
/// atoms, and one for the mark.
pub fn type_of(alloc: Global, diagrams: &Diagrams, a: u32) -> Result<SemType, Memory>
    requires { IsDiagram diagrams.now a }
    ensures names { (n : ℕ) → DependBelow n diagrams.now.nodes → IfOk result (NamesBelow n) }
    ensures shapes { (env : List AtomDef) → length env ≤ the_mark → LooksAtKinds env (condition diagrams.now a) → IfOk result (λ t. IsMetWhere env (condition diagrams.now a) (λ x. In env x t)) }
{
    let mut written = diagrams.simple_type(alloc, a)?;
    for kind in KINDS {
        let root = diagrams.root(a, kind);
        written = with_kind(alloc, diagrams.nodes(), kind, root, written)?;
    }
    Ok(written)
}

/// The type and those shapes of a kind for which the number comes to true.
fn with_kind(
    alloc: Global,
    nodes: &[Node],
    kind: Kind,
    number: u32,
    written: SemType,
) -> Result<SemType, Memory>
    requires are { AreNodes nodes.now }
    requires number { IsNumber nodes.now number }
    ensures { IfOk result (AddsKind kind nodes.now number written) }
{
    if number == FALSE {
        return Ok(written);
    }
    let part = of_kind(alloc, nodes, kind, number)?;
    either(alloc, written, part)
}

/// Those shapes of a kind for which the number comes to true. An atom has shapes of its kind alone, so what
/// needs one need not be kept to the kind.
fn of_kind(alloc: Global, nodes: &[Node], kind: Kind, number: u32) -> Result<SemType, Memory>
    requires are { AreNodes nodes.now }
    requires number { IsNumber nodes.now number }
    requires some { 0 < number }
    ensures { IfOk result (IsKindType kind nodes.now number) }
{
    if number == TRUE {
        return Ok(SemType::Basic(every(kind)));
    }
    let decision = decision(alloc, nodes, kind, number)?;
    if needs_atom(nodes, number) {
        return Ok(decision);
    }
    both(alloc, SemType::Basic(every(kind)), decision)
}

/// What the decision of a node comes to.
fn decision(alloc: Global, nodes: &[Node], kind: Kind, number: u32) -> Result<SemType, Memory>
    requires are { AreNodes nodes.now }
    requires number { IsNumber nodes.now number }
    requires node { 1 < number }
    ensures { IfOk result (IsDecisionType kind nodes.now number) }
{
    let node = nodes[number as usize - 2];
    match node.yes {
        TRUE => match node.no {
            FALSE => literal(alloc, kind, node.on, true),
            no => {
                let rest = decision(alloc, nodes, kind, no)?;
                either(alloc, literal(alloc, kind, node.on, true)?, rest)
            }
        },
        FALSE => match node.no {
            TRUE => literal(alloc, kind, node.on, false),
            no => {
                let rest = decision(alloc, nodes, kind, no)?;
                both(alloc, literal(alloc, kind, node.on, false)?, rest)
            }
        },
        yes => {
            let rest = decision(alloc, nodes, kind, yes)?;
            match node.no {
                TRUE => either(alloc, literal(alloc, kind, node.on, false)?, rest),
                FALSE => both(alloc, literal(alloc, kind, node.on, true)?, rest),
                no => {
                    let holding = both(alloc, literal(alloc, kind, node.on, true)?, rest)?;
                    let rest = decision(alloc, nodes, kind, no)?;
                    let failing = both(alloc, literal(alloc, kind, node.on, false)?, rest)?;
                    either(alloc, holding, failing)
                }
            }
        }
    }
}

/// Whether all ways on which no atom holds lead to false. Takes no memory.
fn needs_atom(nodes: &[Node], number: u32) -> bool
    requires are { AreNodes nodes.now }
    requires number { IsNumber nodes.now number }
    ensures { OnTrue result (NeedsAtom nodes.now number) }
{
    match number {
        FALSE => true,
        TRUE => false,
        _ => {
            let node = nodes[number as usize - 2];
            needs_atom(nodes, node.no) && (node.on != MARK || needs_atom(nodes, node.yes))
        }
    }
}

/// What has the mark or is in the atom, if this is wanted, and else what has it not or isn't in it.
fn literal(alloc: Global, kind: Kind, on: u32, wanted: bool) -> Result<SemType, Memory>
    ensures { IfOk result (IsLiteralType kind on wanted) }
{
    let literal = if on == MARK {
        SemType::Basic(marked(kind))
    } else {
        SemType::Atom(on)
    };
    if wanted {
        return Ok(literal);
    }
    Ok(SemType::Not(Box::new(alloc, literal)?))
}

/// The set of all shapes of the kind.
fn every(kind: Kind) -> BasicSet
    ensures { result ≡ all_of kind }
{
    match kind {
        Kind::List => BasicSet::ListAll,
        Kind::Mapping => BasicSet::MappingAll,
        Kind::Error => BasicSet::ErrorAll,
        Kind::Function => BasicSet::FunctionAll,
        Kind::Future => BasicSet::FutureAll,
    }
}

/// A set that has, of the shapes of the kind, those with the mark.
fn marked(kind: Kind) -> BasicSet
    ensures { result ≡ marked_of kind }
{
    match kind {
        Kind::List | Kind::Mapping => BasicSet::Readonly,
        Kind::Error | Kind::Function | Kind::Future => BasicSet::Never,
    }
}

/// The union of two types. A first one without shapes adds nothing.
fn either(alloc: Global, s: SemType, t: SemType) -> Result<SemType, Memory>
    ensures { IfOk result (IsEither s t) }
{
    if matches!(s, SemType::Basic(BasicSet::Never)) {
        return Ok(t);
    }
    Ok(SemType::Or(Box::new(alloc, s)?, Box::new(alloc, t)?))
}

fn both(alloc: Global, s: SemType, t: SemType) -> Result<SemType, Memory>
    ensures { IfOk result (IsBoth s t) }
{
    Ok(SemType::And(Box::new(alloc, s)?, Box::new(alloc, t)?))
}
