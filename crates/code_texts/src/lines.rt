//! The lines of a code.
#![tactic(auto, using(crate::proofs::Listing::in_a_row))]

ghost use Rattle.std.specs.Prelude.{◌≡◌, IfOk, OnOk};
ghost use Rattle.code_texts.specs.CodeText.{code_text, line_of, lines_from};
ghost use Rattle.text_forms.specs.Forms.{Adds, written};

use crate::instructions::{add_numbers, name};
use bal_base::Memory;
use stack_code::{Code, Instr};
use std::alloc::Global;
use text_forms::{add_number, add_word};

/// The text of a code: for each instruction, in order, its place, its name and its numbers, separated by spaces, and a line
/// end, as in `2 MakeList 16 3 0`; `-` stands for a future among what a wait names. Takes time linear in the text. Wants
/// memory alone.
pub fn code_text(alloc: Global, code: &Code) -> Result<String, Memory>
    ensures { IfOk result (λ text. written text ≡ code_text code.now) }
{
    let mut out = String::new(alloc);
    add_lines(&mut out, code.instrs.as_slice())?;
    Ok(out)
}

/// Adds a line for each instruction.
fn add_lines(out: &mut String, instrs: &[Instr]) -> Result<(), Memory>
    ensures { OnOk result (Adds (written out.old) (lines_from 0 instrs.now) (written out.new)) }
{
    for (place, instr) in instrs.iter().enumerate() {
        add_line(out, place as u64, instr)?;
    }
    Ok(())
}

/// Adds the line of the instruction at this place.
fn add_line(out: &mut String, place: u64, instr: &Instr) -> Result<(), Memory>
    ensures { OnOk result (Adds (written out.old) (line_of place instr.now) (written out.new)) }
{
    add_number(out, place)?;
    add_word(out, " ")?;
    add_word(out, name(instr))?;
    add_numbers(out, instr)?;
    add_word(out, "\n")
}
