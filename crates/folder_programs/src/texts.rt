//! What may be told of a program that was compiled and doesn't run.
ghost use Rattle.std.specs.Prelude.{◌≡◌, IfOk};
ghost use Rattle.folder_programs.specs.Texts.{IsTextOf, IsTextOfCode, ok_text};
ghost use Rattle.text_forms.specs.Forms.{written};

use crate::compiling::Ready;
use bal_base::Memory;
use code_texts::code_text;
use lower_package::lower_to_run;
use pair_texts::pairs_text;
use std::alloc::Global;
use type_model::Types;

/// Which text is told.
#[derive(Clone, Copy)]
pub enum Telling {
    /// That it is accepted.
    Accepted,
    /// Its pairs.
    Pairs,
    /// Its code.
    Code,
}

/// The text of a program. Time and room grow with the text; that of its code is lowered first. Wants memory alone.
pub fn program_text(alloc: Global, telling: Telling, ready: &Ready) -> Result<String, Memory>
    ensures { IfOk result (λ text. IsTextOf telling ready.now.types.atoms ready.now.built (written text)) }
{
    match telling {
        Telling::Accepted => ok(alloc),
        Telling::Pairs => pairs_text(
            alloc,
            &ready.built.typed,
            ready.built.plans.functions.as_slice(),
            ready.built.source.modules.as_slice(),
        ),
        Telling::Code => program_code(alloc, ready),
    }
}

/// The text of a program that is accepted.
fn ok(alloc: Global) -> Result<String, Memory>
    ensures { IfOk result (λ text. written text ≡ ok_text) }
{
    Ok(String::from_str(alloc, "ok\n")?)
}

/// The text of a code of the program as it was checked.
fn program_code(alloc: Global, ready: &Ready) -> Result<String, Memory>
    ensures { IfOk result (λ text. IsTextOfCode ready.now.types.atoms ready.now.built (written text)) }
{
    let code = lower_to_run(alloc, ready.types.env(), &ready.built.typed)?;
    code_text(alloc, &code)
}
