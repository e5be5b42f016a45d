//! Answers as they are told.
ghost use Rattle.std.specs.Prelude.{◌≡◌, IfOk, OnOk};
ghost use Rattle.text_forms.specs.Forms.{Adds, written};
ghost use Rattle.bal_report.specs.ShapeText.{shape_text as text_of_shape};
ghost use Rattle.type_questions.specs.Answers.{answer_text};

use bal_base::{Memory, Shape};
use bal_report::shape_text;
use std::alloc::Global;
use text_forms::{add_text, add_word};
use type_model::Answer;

/// The text of an answer: `yes`, or `no`, a space and the text of the shape, and a line end.
pub fn answer_text(alloc: Global, answer: &Answer) -> Result<String, Memory>
    ensures { IfOk result (λ text. written text ≡ answer_text answer.now) }
{
    let mut out = String::new(alloc);
    add_answer(alloc, &mut out, answer)?;
    Ok(out)
}

/// Adds the text of the answer.
fn add_answer(alloc: Global, out: &mut String, answer: &Answer) -> Result<(), Memory>
    ensures { OnOk result (Adds (written out.old) (answer_text answer.now) (written out.new)) }
{
    match answer {
        Answer::Yes => add_word(out, "yes\n"),
        Answer::No(shape) => {
            add_word(out, "no ")?;
            add_shape(alloc, out, shape)?;
            add_word(out, "\n")
        }
    }
}

/// Adds the text of the shape.
fn add_shape(alloc: Global, out: &mut String, shape: &Shape) -> Result<(), Memory>
    ensures { OnOk result (Adds (written out.old) (text_of_shape shape.now) (written out.new)) }
{
    let text = shape_text(alloc, shape)?;
    add_text(out, text.as_str())?;
    Ok(())
}
