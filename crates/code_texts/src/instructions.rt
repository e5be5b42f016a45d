//! The names and the numbers of instructions.
#![tactic(auto, using(crate::proofs::Listing::in_a_row))]

ghost use Rattle.std.specs.Prelude.{◌≡◌, ◌∷◌, [], OnOk, Some as There, true};
ghost use Rattle.std.specs.Char.{is_ascii};
ghost use Rattle.std.specs.List.{list_all};
ghost use Rattle.code_texts.specs.CodeText.{name_of, number_behind, numbers_of, numbers_text, truth_number};
ghost use Rattle.text_forms.specs.Forms.{Adds, written};

use bal_base::Memory;
use stack_code::Instr;
use text_forms::{add_number, add_word};

/// The name of an instruction.
pub(crate) fn name(instr: &Instr) -> &'static str
    ensures words { result.now ≡ name_of instr.now }
    ensures ascii { list_all is_ascii result.now ≡ true }
{
    match instr {
        Instr::Const(_) => "Const",
        Instr::Pop => "Pop",
        Instr::Load(_) => "Load",
        Instr::Store(_) => "Store",
        Instr::LoadModule(_) => "LoadModule",
        Instr::StoreModule(_) => "StoreModule",
        Instr::Tick => "Tick",
        Instr::Jump(_) => "Jump",
        Instr::JumpIfNot(_) => "JumpIfNot",
        Instr::Add => "Add",
        Instr::Sub => "Sub",
        Instr::Mul => "Mul",
        Instr::Div => "Div",
        Instr::Rem => "Rem",
        Instr::Neg => "Neg",
        Instr::Concat => "Concat",
        Instr::Less => "Less",
        Instr::LessEqual => "LessEqual",
        Instr::Not => "Not",
        Instr::Equal => "Equal",
        Instr::Same => "Same",
        Instr::MakeList { .. } => "MakeList",
        Instr::MakeMap { .. } => "MakeMap",
        Instr::MakeError { .. } => "MakeError",
        Instr::MakeFunction { .. } => "MakeFunction",
        Instr::GetItem => "GetItem",
        Instr::GetKey => "GetKey",
        Instr::GetChar => "GetChar",
        Instr::GetField(_) => "GetField",
        Instr::GetOptional(_) => "GetOptional",
        Instr::SetItem => "SetItem",
        Instr::SetKey => "SetKey",
        Instr::Test(_) => "Test",
        Instr::Cast(_) => "Cast",
        Instr::Call(_) => "Call",
        Instr::CallValue(_) => "CallValue",
        Instr::Native { .. } => "Native",
        Instr::Return => "Return",
        Instr::Trap(_) => "Trap",
        Instr::Untrap => "Untrap",
        Instr::Panic => "Panic",
        Instr::StartCall(_) => "StartCall",
        Instr::StartValue(_) => "StartValue",
        Instr::Workers => "Workers",
        Instr::Send(_) => "Send",
        Instr::Post(_) => "Post",
        Instr::Done(_) => "Done",
        Instr::Receive(_) => "Receive",
        Instr::Flush(_) => "Flush",
        Instr::WaitWorker(_) => "WaitWorker",
        Instr::WaitFuture => "WaitFuture",
        Instr::WaitAny(_) => "WaitAny",
        Instr::WaitAll { .. } => "WaitAll",
    }
}

/// Adds the numbers of an instruction, each behind a space.
pub(crate) fn add_numbers(out: &mut String, instr: &Instr) -> Result<(), Memory>
    ensures { OnOk result (Adds (written out.old) (numbers_text (numbers_of instr.now)) (written out.new)) }
{
    match instr {
        Instr::Pop
        | Instr::Tick
        | Instr::Add
        | Instr::Sub
        | Instr::Mul
        | Instr::Div
        | Instr::Rem
        | Instr::Neg
        | Instr::Concat
        | Instr::Less
        | Instr::LessEqual
        | Instr::Not
        | Instr::Equal
        | Instr::Same
        | Instr::GetItem
        | Instr::GetKey
        | Instr::GetChar
        | Instr::SetItem
        | Instr::SetKey
        | Instr::Return
        | Instr::Untrap
        | Instr::Panic
        | Instr::Workers
        | Instr::WaitFuture => Ok(()),
        Instr::Const(n)
        | Instr::Load(n)
        | Instr::Store(n)
        | Instr::LoadModule(n)
        | Instr::StoreModule(n)
        | Instr::Jump(n)
        | Instr::JumpIfNot(n)
        | Instr::MakeError { count: n }
        | Instr::GetField(n)
        | Instr::GetOptional(n)
        | Instr::Test(n)
        | Instr::Cast(n)
        | Instr::Call(n)
        | Instr::CallValue(n)
        | Instr::Trap(n)
        | Instr::StartCall(n)
        | Instr::StartValue(n)
        | Instr::Send(n)
        | Instr::Post(n)
        | Instr::Done(n)
        | Instr::Receive(n)
        | Instr::Flush(n)
        | Instr::WaitWorker(n) => add_one(out, *n),
        Instr::MakeFunction { unit, count } => add_two(out, *unit, *count),
        Instr::MakeList {
            atom,
            count,
            immutable,
        }
        | Instr::MakeMap {
            atom,
            count,
            immutable,
        } => add_made(out, *atom, *count, *immutable),
        Instr::Native { op, atom, count } => add_native(out, *op, *atom, *count),
        Instr::WaitAny(awaited) => add_entries(out, awaited.as_slice()),
        Instr::WaitAll { atom, awaited } => {
            add_one(out, *atom)?;
            add_entries(out, awaited.as_slice())
        }
    }
}

/// Adds a number.
fn add_one(out: &mut String, n: u32) -> Result<(), Memory>
    ensures { OnOk result (Adds (written out.old) (number_behind (There n)) (written out.new)) }
{
    add_word(out, " ")?;
    add_number(out, n as u64)
}

/// Adds two numbers.
fn add_two(out: &mut String, a: u32, b: u32) -> Result<(), Memory>
    ensures { OnOk result (Adds (written out.old) (numbers_text (There a ∷ There b ∷ [])) (written out.new)) }
{
    add_one(out, a)?;
    add_one(out, b)
}

/// Adds the numbers with which a structure is made.
fn add_made(out: &mut String, atom: u32, count: u32, immutable: bool) -> Result<(), Memory>
    ensures { OnOk result (Adds (written out.old) (numbers_text (There atom ∷ There count ∷ There (truth_number immutable) ∷ [])) (written out.new)) }
{
    add_two(out, atom, count)?;
    add_one(out, truth_number(immutable))
}

/// 1 for what is so, 0 for what isn't.
fn truth_number(truth: bool) -> u32
    ensures { result ≡ truth_number truth }
{
    if truth { 1 } else { 0 }
}

/// Adds the numbers of a call of the library.
fn add_native(out: &mut String, op: u16, atom: u32, count: u32) -> Result<(), Memory>
    ensures { OnOk result (Adds (written out.old) (numbers_text (There op ∷ There atom ∷ There count ∷ [])) (written out.new)) }
{
    add_one(out, op as u32)?;
    add_two(out, atom, count)
}

/// Adds what a wait names.
fn add_entries(out: &mut String, awaited: &[Option<u32>]) -> Result<(), Memory>
    ensures { OnOk result (Adds (written out.old) (numbers_text awaited.now) (written out.new)) }
{
    for entry in awaited {
        add_entry(out, *entry)?;
    }
    Ok(())
}

/// Adds a worker's number, or the sign for a future.
fn add_entry(out: &mut String, entry: Option<u32>) -> Result<(), Memory>
    ensures { OnOk result (Adds (written out.old) (number_behind entry) (written out.new)) }
{
    match entry {
        Some(worker) => add_one(out, worker),
        None => add_word(out, " -"),
    }
}
