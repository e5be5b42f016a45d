//! Questions about the parts of marked shapes.
ghost use Rattle.std.specs.Prelude.{◌≡◌, ◌==◌, ◌↔◌, IfOk, IsTrue, length, true};
ghost use Rattle.std.specs.List.{list_any};
ghost use Rattle.type_diagrams.specs.Conditions.{frozen};
ghost use Rattle.type_diagrams.specs.Kinds.{the_mark};
ghost use Rattle.type_diagrams.specs.Tables.{IsDiagram, condition};
ghost use Rattle.type_diagrams.specs.Whole.{Extends, Gives};
ghost use Rattle.empty_product.specs.Bases.{frozen_where};

use bal_base::{AtomList, Memory};
use type_diagrams::{Diagrams, MARK, Path};
use type_model::{BasicSet, SemType, TypeEnv};

/// Nil, booleans, ints, strings, marked lists and marked mappings.
pub(crate) fn frozen_parts(env: &TypeEnv, dia: &mut Diagrams) -> Result<u32, Memory>
    ensures extends { Extends (length env.now) dia.old dia.new }
    ensures made { IfOk result (Gives dia.new frozen) }
{
    let readonly = dia.of(env, &SemType::Basic(BasicSet::Readonly))?;
    let errors = dia.of(env, &SemType::Basic(BasicSet::ErrorAll))?;
    let functions = dia.of(env, &SemType::Basic(BasicSet::FunctionAll))?;
    let without_errors = dia.diff(readonly, errors)?;
    dia.diff(without_errors, functions)
}

/// The question, and where the shapes are marked only what may stand in them.
pub(crate) fn frozen_if(
    env: &TypeEnv,
    dia: &mut Diagrams,
    marked: bool,
    question: u32,
) -> Result<u32, Memory>
    requires question { IsDiagram dia.old question }
    ensures extends { Extends (length env.now) dia.old dia.new }
    ensures made { IfOk result (Gives dia.new (frozen_where marked (condition dia.old question))) }
{
    if marked {
        let frozen = frozen_parts(env, dia)?;
        dia.inter(question, frozen)
    } else {
        Ok(question)
    }
}

/// Whether the mark is among literals.
fn has_mark(literals: &AtomList) -> bool
    ensures { result ≡ list_any (λ l. l == the_mark) literals.now }
{
    literals.as_slice().iter().any(|literal| *literal == MARK)
}

/// Whether the path says that its shapes are marked, and that they aren't. No diagram has such a path.
pub(crate) fn has_both_marks(path: &Path) -> bool
    ensures { IsTrue result ↔ ((list_any (λ l. l == the_mark) path.now.pos ≡ true) × (list_any (λ l. l == the_mark) path.now.neg ≡ true)) }
{
    if path.is_marked() {
        has_mark(&path.neg)
    } else {
        false
    }
}
