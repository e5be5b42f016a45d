//! What the module at hand defines under a name.
#![tactic(auto)]

ghost use Rattle.std.specs.Prelude.{IfOk};
ghost use Rattle.descriptors.specs.Naming.{entry_in};
ghost use Rattle.descriptors.specs.declared.names.Meaning.TheVariants as meaning;
ghost use Rattle.needs_of_functions.specs.Defined.{IsDefinedAs, IsVariable};

use bal_base::Memory;
use bal_tree::{QualifiedName, Word};
use descriptors::{Meaning, Names, Scope, Signature};
use type_model::Ty;

/// What the module of the place defines under the word. Where it defines nothing it is as if memory were wanted.
fn own_meaning<'n>(names: &'n Names, scope: Scope, word: &Word) -> Result<&'n Meaning, Memory>
    ensures { IfOk result (λ m. IsDefinedAs (entry_in names.now word.now.name scope.«module») m.now) }
{
    let name = QualifiedName {
        prefix: None,
        word: Word {
            name: word.name.share(),
            at: word.at,
        },
        at: word.at,
    };
    match names.meaning(scope, &name) {
        Ok(meaning) => Ok(meaning),
        Err(_) => Err(Memory),
    }
}

/// The number and the type of the variable with this name of the module of the place. Where it has none it is as if memory were wanted.
pub(crate) fn variable_of<'n>(
    names: &'n Names,
    scope: Scope,
    word: &Word,
) -> Result<(u32, &'n Ty), Memory>
    ensures { IfOk result (λ v. IsVariable (entry_in names.now word.now.name scope.«module») v.0 v.1.now) }
{
    let found = own_meaning(names, scope, word)?;
    match found {
        Meaning::Variable { number, ty, .. } => Ok((*number, ty)),
        Meaning::TypeName(_) | Meaning::Constant(_) | Meaning::Function(_) => Err(Memory),
    }
}

/// The signature of the function with this name of the module of the place. Where it has none it is as if memory were wanted.
pub(crate) fn signature_of<'n>(
    names: &'n Names,
    scope: Scope,
    word: &Word,
) -> Result<&'n Signature, Memory>
    ensures { IfOk result (λ f. IsDefinedAs (entry_in names.now word.now.name scope.«module») (meaning.Function f.now)) }
{
    let found = own_meaning(names, scope, word)?;
    match found {
        Meaning::Function(f) => Ok(f),
        Meaning::TypeName(_) | Meaning::Constant(_) | Meaning::Variable { .. } => Err(Memory),
    }
}
