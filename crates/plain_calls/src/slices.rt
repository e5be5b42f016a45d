//! Parts of lists of values.
#![tactic(auto, using(crate::proofs::Making::making))]

ghost use Rattle.std.specs.Prelude.{◌≡◌, drop, take};

use value_model::Value;

/// The first ones of the values, and those behind them.
pub(crate) fn front(values: &[Value], count: usize) -> &[Value]
    ensures { result.now ≡ take count values.now }
{
    if count < values.len() {
        &values[..count]
    } else {
        values
    }
}

pub(crate) fn behind(values: &[Value], count: usize) -> &[Value]
    ensures { result.now ≡ drop count values.now }
{
    if count < values.len() {
        &values[count..]
    } else {
        &[]
    }
}
