//! What functions take.
#![tactic(auto, using(crate::proofs::Parameters::parameters))]

ghost use Rattle.std.specs.Prelude.{◌≡◌, option_to_list};
ghost use Rattle.std.specs.Option.{option_copied};
ghost use Rattle.check_words.specs.Calls.{function_takes as signature_takes, parameter_of};

use descriptors::Signature;
use type_model::Ty;

/// Whether a function may be called with so many arguments.
pub fn function_takes(f: &Signature, count: usize) -> bool
    ensures { result ≡ signature_takes f.now count }
{
    let params = f.params.as_slice().len();
    params <= count && (f.rest.is_some() || count <= params)
}

/// The type of the parameter with this number, or of what takes the rest, if there is one.
pub fn parameter(f: &Signature, number: usize) -> Option<&Ty>
    ensures { option_to_list (option_copied result) ≡ parameter_of f.now number }
{
    match f.params.as_slice().get(number) {
        Some(t) => Some(t),
        None => f.rest.as_ref(),
    }
}
