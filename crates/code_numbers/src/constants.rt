//! Constants that are values.
ghost use Rattle.std.specs.Prelude.{◌↔◌, All, IsTrue};
ghost use Rattle.bal_base.specs.Valid.{IsText, IsValid};
ghost use Rattle.operations.specs.Rows.{shape_of};
ghost use Rattle.stack_code.specs.Tables.{IsConstant};

use bal_base::Text;
use operations::Constant;
use stack_code::Code;

/// Whether all numbers of the text are those of characters, as they are.
pub(crate) fn is_text(text: &Text) -> bool
    ensures { IsTrue result ↔ IsText text.now }
{
    let _characters = text.as_str();
    true
}

/// Whether the constant is a value, as it is: ints are in range, and strings have characters.
fn is_constant(constant: &Constant) -> bool
    ensures { IsTrue result ↔ IsValid (shape_of constant.now) }
{
    match constant {
        Constant::Nil => true,
        Constant::Bool(_) => true,
        Constant::Int(i) => {
            let _value = *i;
            true
        }
        Constant::Str(text) => is_text(text),
    }
}

/// Whether the constants of a code are values. Each one is.
pub fn constants_hold(code: &Code) -> bool
    ensures { IsTrue result ↔ All (IsConstant code.now) code.now.constants }
{
    let constants = code.constants.as_slice();
    constants.iter().all(|constant| is_constant(constant))
}
