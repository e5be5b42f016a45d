//! Whether a package has a function to begin with.
#![tactic(auto)]

ghost use Rattle.std.specs.List.{list_any};
ghost use Rattle.std.specs.Option.{option_copied};
ghost use Rattle.std.specs.Prelude.{◌≡◌, slice_get};
ghost use Rattle.bal_tree.specs.declared.def.Def.TheVariants.{Function as FunctionOf};
ghost use Rattle.compile_front.specs.Mains.{has_main, has_public_main, is_public_main, main_in, no_main};

use bal_base::{Fault, FaultCode, Kept};
use bal_tree::{Def, FunctionDef, Module, Package, SourceFile};
use name_resolution::is_main;

/// Whether the package's default module has a public function `main`, whatever else it is. Its cost grows with the number of
/// definitions of that module.
pub fn has_main(package: &Package) -> bool
    ensures { result ≡ has_main «package».now }
{
    main_if(home_of(package))
}

/// The default module.
fn home_of(package: &Package) -> Option<&Module>
    ensures { option_copied result ≡ slice_get «package».now.modules «package».now.main }
{
    package.modules.as_slice().get(package.main as usize)
}

fn main_if(home: Option<&Module>) -> bool
    ensures { result ≡ main_in (option_copied home.entry) }
{
    match home {
        Some(home) => main_among(home.files.as_slice()),
        None => false,
    }
}

fn main_among(files: &[SourceFile]) -> bool
    ensures { result ≡ list_any has_public_main files.now }
{
    files.iter().any(|file| has_public_main(file))
}

fn has_public_main(file: &SourceFile) -> bool
    ensures { result ≡ has_public_main file.now }
{
    file.tree.defs.iter().any(|def| is_public_main(def))
}

fn is_public_main(def: &Def) -> bool
    ensures { result ≡ is_public_main def.now }
{
    match def {
        Def::Function(f) => is_named(f),
        Def::Type(_) | Def::Const(_) | Def::Variable(_) => false,
    }
}

fn is_named(f: &FunctionDef) -> bool
    ensures { result ≡ is_public_main (FunctionOf f.now) }
{
    f.public && is_main(&f.name.name)
}

/// The fault of a package without one. It has no place.
pub(crate) fn no_main() -> Fault
    ensures { result ≡ no_main }
{
    Fault {
        code: FaultCode::NoMain,
        at: None,
        kept: Kept::Nothing,
    }
}
