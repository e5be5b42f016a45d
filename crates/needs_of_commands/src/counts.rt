//! How many operands an instruction takes, whether it gives a result, and whether the frame ends there.
ghost use Rattle.std.specs.Option.{option_copied};
ghost use Rattle.std.specs.Prelude.{◌≡◌, ◌≤◌, ◌<◌, ◌∷◌, ◌+◌, [], Some, length, slice_get};
ghost use Rattle.operations.specs.declared.operation.Operation.{Operation as Done};
ghost use Rattle.stack_code.specs.declared.code.Code.{Code as AnyCode};
ghost use Rattle.stack_code.specs.Commands.{Do, command_of};
ghost use Rattle.code_needs.specs.Stacks.{ends as ends_here, futures_in, gives as gives_one, operand_count as count_of};
ghost use Rattle.needs_of_commands.specs.inner.Counted.{ends_so, gives_so, params_in, plain_count};

use stack_code::{Code, Instr, Unit};

// ---- operands

/// The unit with the number.
fn unit_at<'c>(code: &'c Code, number: u32) -> Option<&'c Unit>
    ensures { option_copied result ≡ slice_get code.now.units number }
{
    code.units.as_slice().get(number as usize)
}

/// How many parameters the unit has, and 0 where there is none.
fn params(unit: Option<&Unit>) -> usize
    ensures { result ≡ params_in (option_copied unit.entry) }
{
    match unit {
        Some(u) => u.params.as_slice().len(),
        None => 0,
    }
}

/// Two operands for each of so many pairs.
fn twice(count: u32) -> usize
    ensures { result ≡ count + count }
{
    let pairs = count as usize;
    pairs + pairs
}

/// A future among the names is an operand.
fn futures_of(name: Option<u32>) -> usize
    ensures count { result ≡ futures_in (name ∷ []) }
    ensures few { result ≤ 1 }
{
    match name {
        Some(_) => 0,
        None => 1,
    }
}

/// The name in the place.
fn name_at(names: &[Option<u32>], place: usize) -> Option<u32>
    requires { place < length names.now }
    ensures { slice_get names.now place ≡ Some result }
{
    names[place]
}

/// How many of the names are futures.
fn futures(names: &[Option<u32>]) -> usize
    ensures { result ≡ futures_in names.now }
{
    let mut count = 0;
    for k in 0..names.len() {
        count += futures_of(name_at(names, k));
    }
    count
}

/// How many operands an instruction takes that names no number of them.
fn plain(instr: &Instr) -> usize
    ensures { result ≡ plain_count instr.now }
{
    match instr {
        Instr::SetItem | Instr::SetKey => 3,
        Instr::Add | Instr::Sub | Instr::Mul | Instr::Div | Instr::Rem => 2,
        Instr::Concat | Instr::Less | Instr::LessEqual => 2,
        Instr::Equal | Instr::Same => 2,
        Instr::GetItem | Instr::GetKey | Instr::GetChar => 2,
        Instr::Pop | Instr::Store(_) | Instr::StoreModule(_) => 1,
        Instr::Neg | Instr::Not | Instr::Test(_) | Instr::Cast(_) => 1,
        Instr::GetField(_) | Instr::GetOptional(_) => 1,
        Instr::Return | Instr::Panic => 1,
        Instr::Send(_) | Instr::Post(_) | Instr::WaitFuture => 1,
        _ => 0,
    }
}

/// How many operands the operation of an instruction takes.
pub fn operand_count(code: &Code, instr: &Instr) -> usize
    ensures { (o : Done) → command_of code.now instr.now ≡ Some (Do o) → result ≡ count_of o }
{
    match instr {
        Instr::MakeList { count, .. } => *count as usize,
        Instr::MakeMap { count, .. } => twice(*count),
        Instr::MakeError { count } => 2 + twice(*count),
        Instr::MakeFunction { count, .. } => *count as usize,
        Instr::Call(unit) => params(unit_at(code, *unit)),
        Instr::CallValue(count) => 1 + *count as usize,
        Instr::Native { count, .. } => *count as usize,
        Instr::StartCall(unit) => params(unit_at(code, *unit)),
        Instr::StartValue(count) => 1 + *count as usize,
        Instr::WaitAny(names) => futures(names.as_slice()),
        Instr::WaitAll { awaited, .. } => futures(awaited.as_slice()),
        _ => plain(instr),
    }
}

// ---- results and ends

/// Whether it is none of the instructions without a result.
fn is_giving(instr: &Instr) -> bool
    ensures { result ≡ gives_so instr.now }
{
    match instr {
        Instr::Pop | Instr::Store(_) | Instr::StoreModule(_) => false,
        Instr::Tick | Instr::Workers | Instr::Post(_) => false,
        Instr::SetItem | Instr::SetKey => false,
        Instr::Return | Instr::Panic => false,
        _ => true,
    }
}

/// Whether the operation of an instruction gives a result.
pub fn gives(instr: &Instr) -> bool
    ensures { (code : AnyCode) (o : Done) → command_of code instr.now ≡ Some (Do o) → result ≡ gives_one o }
{
    is_giving(instr)
}

/// Whether it is one of the two at which frames end.
fn is_ending(instr: &Instr) -> bool
    ensures { result ≡ ends_so instr.now }
{
    match instr {
        Instr::Return | Instr::Panic => true,
        _ => false,
    }
}

/// Whether the frame ends where the operation of an instruction is done, so that nothing stands behind.
pub fn ends(instr: &Instr) -> bool
    ensures { (code : AnyCode) (o : Done) → command_of code instr.now ≡ Some (Do o) → result ≡ ends_here o }
{
    is_ending(instr)
}
