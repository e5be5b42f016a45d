//! Answers of tests.
ghost use Rattle.std.specs.Prelude.{◌≡◌, ◌<◌, ℕ, All, IfOk, length};
ghost use Rattle.std.specs.List.{AllZip};
ghost use Rattle.bal_base.specs.Stops.{IfFault};
ghost use Rattle.type_model.specs.Defined.{IsDefined};
ghost use Rattle.value_model.specs.Exact.{AnswersExactly};
ghost use Rattle.code_verifier.specs.Deciding.{DecidesSub};
ghost use Rattle.code_verifier.specs.LedTo.{SomePasses};
ghost use Rattle.test_answers.specs.ValueTypes.{AsksOfAtom, AsksOfAtoms, AsksTested};

use crate::values::value_type;
use bal_base::{Memory, Row, Stop};
use code_verifier::is_subtype;
use std::alloc::Global;
use type_model::{SemType, TypeLimit, Types};

/// Whether the type is below each of the tested ones.
fn answers_of<T: Types>(
    alloc: Global,
    types: &mut T,
    s: &SemType,
    tested: &[SemType],
) -> Result<Row<bool>, Stop<TypeLimit>>
    requires left { IsDefined (T.atoms types.old) s.now }
    requires right { All (IsDefined (T.atoms types.old)) tested.now }
    ensures atoms { T.atoms types.new ≡ T.atoms types.old }
    ensures answers { IfOk result (AllZip (DecidesSub (T.atoms types.old) s.now) tested.now) }
    ensures limit { IfFault result (SomePasses T.passes (T.atoms types.old) (AsksTested s.now tested.now)) }
{
    let mut answers = Vec::new(alloc);
    for t in tested {
        let below = is_subtype(alloc, types, s, t)?;
        answers.push(below)?;
    }
    Ok(Row::of(answers))
}

/// For each tested type, whether all values that are made with the atom belong to it: one question each. `TypeLimit` where
/// one of them is too large.
pub fn atom_answers<T: Types>(
    alloc: Global,
    types: &mut T,
    atom: u32,
    tested: &[SemType],
) -> Result<Row<bool>, Stop<TypeLimit>>
    requires atom { atom < length (T.atoms types.old) }
    requires defined { All (IsDefined (T.atoms types.old)) tested.now }
    ensures atoms { T.atoms types.new ≡ T.atoms types.old }
    ensures answers { IfOk result (AnswersExactly (T.atoms types.old) tested.now atom) }
    ensures limit { IfFault result (SomePasses T.passes (T.atoms types.old) (AsksOfAtom (T.atoms types.old) tested.now atom)) }
{
    match value_type(alloc, &*types, atom) {
        Ok(s) => answers_of(alloc, types, &s, tested),
        Err(Memory) => Err(Stop::Memory),
    }
}

/// For each of the atoms, its answers: as many questions as there are atoms times tested types. `TypeLimit` where one of them
/// is too large.
pub fn test_answers<T: Types>(
    alloc: Global,
    types: &mut T,
    inherent: &[u32],
    tested: &[SemType],
) -> Result<Vec<Row<bool>>, Stop<TypeLimit>>
    requires atoms { All (λ (a : ℕ). a < length (T.atoms types.old)) inherent.now }
    requires defined { All (IsDefined (T.atoms types.old)) tested.now }
    ensures atoms { T.atoms types.new ≡ T.atoms types.old }
    ensures answers { IfOk result (λ rows. AllZip (AnswersExactly (T.atoms types.old) tested.now) inherent.now rows.items) }
    ensures limit { IfFault result (SomePasses T.passes (T.atoms types.old) (AsksOfAtoms (T.atoms types.old) tested.now inherent.now)) }
{
    let mut rows = Vec::new(alloc);
    for atom in inherent {
        let row = atom_answers(alloc, types, *atom, tested)?;
        rows.push(row)?;
    }
    Ok(rows)
}
