//! Values of fillers, where new structures get numbers in turn.
ghost use Rattle.std.specs.Prelude.{◌≡◌, ◌+◌, ◌++◌, ◌∷◌, [], IfOk, OnOk, length};
ghost use Rattle.value_model.specs.declared.value.Value.TheVariants.{Struct};
ghost use Rattle.op_model.specs.Fillers as model;

use bal_base::Memory;
use std::alloc::Global;
use value_model::{Filler, Value};

/// Values, and the number of the next structure behind them.
#[derive(Drop)]
pub(crate) struct Filled {
    pub(crate) values: Vec<Value>,
    pub(crate) next: u32,
}

/// The next number, where there is one.
fn after(number: u32) -> Result<u32, Memory>
    ensures { IfOk result (λ n. n ≡ number + 1) }
{
    if number == u32::MAX {
        return Err(Memory);
    }
    Ok(number + 1)
}

/// The value of a filler behind the others, where there is one; and the number of the next structure.
fn push_value(values: &mut Vec<Value>, next: u32, f: &Filler) -> Result<u32, Memory>
    ensures values { OnOk result (values.new.items ≡ values.old.items ++ model.filler_values next (f.now ∷ [])) }
    ensures next { IfOk result (λ n. n ≡ next + length (model.new_ones (f.now ∷ []))) }
{
    match f {
        Filler::Nothing => Ok(next),
        Filler::Nil => push_simple(values, next, Value::Nil),
        Filler::Bool(b) => push_simple(values, next, Value::Bool(*b)),
        Filler::Int(n) => push_simple(values, next, Value::Int(*n)),
        Filler::Str(text) => push_simple(values, next, Value::Str(text.share())),
        Filler::List(_) | Filler::Mapping(_) => push_structure(values, next),
    }
}

fn push_simple(values: &mut Vec<Value>, next: u32, v: Value) -> Result<u32, Memory>
    ensures values { OnOk result (values.new.items ≡ values.old.items ++ v ∷ []) }
    ensures next { IfOk result (λ n. n ≡ next) }
{
    values.push(v)?;
    Ok(next)
}

fn push_structure(values: &mut Vec<Value>, next: u32) -> Result<u32, Memory>
    ensures values { OnOk result (values.new.items ≡ values.old.items ++ Struct next ∷ []) }
    ensures next { IfOk result (λ n. n ≡ next + 1) }
{
    values.push(Value::Struct(next))?;
    after(next)
}

/// The values of fillers, where the new structures are numbered from one on.
pub(crate) fn values_of(alloc: Global, first: u32, fillers: &[Filler]) -> Result<Filled, Memory>
    ensures values { IfOk result (λ r. r.values.items ≡ model.filler_values first fillers.now) }
    ensures next { IfOk result (λ r. r.next ≡ first + length (model.new_ones fillers.now)) }
{
    let mut values = Vec::new(alloc);
    let mut next = first;
    for f in fillers {
        next = push_value(&mut values, next, f)?;
    }
    Ok(Filled { values, next })
}
