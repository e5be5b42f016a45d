//! The texts of shapes.
#![tactic(auto, using(crate::proofs::ShapeRules::shape_rules))]

ghost use Rattle.std.specs.Prelude.{◌≡◌, IfOk, OnOk, map, option_map};
ghost use Rattle.bal_report.specs.ShapeText.{as_written, case_text, field_text, result_text, shape_text};
ghost use Rattle.text_forms.specs.Forms.{Adds, listed, written};

use bal_base::{Case, Memory, Shape, Text};
use std::alloc::Global;
use text_forms::{add_if, add_int, add_quoted, add_truth, add_word};

/// The text of a shape, as `readonly [1,"a"]`, `{"a":1}`, `error(readonly {})`, `function{(1)->2,(3)->fail}` or
/// `future{1}`. Takes time linear in the text, and a stack as deep as the shape.
pub fn shape_text(alloc: Global, s: &Shape) -> Result<String, Memory>
    ensures { IfOk result (λ text. written text ≡ shape_text s.now) }
{
    let mut out = String::new(alloc);
    add_shape(&mut out, s)?;
    Ok(out)
}

/// Adds the text of the shape.
#[cycle(shapes)]
pub(crate) fn add_shape(out: &mut String, s: &Shape) -> Result<(), Memory>
    ensures { OnOk result (Adds (written out.old) (shape_text s.now) (written out.new)) }
{
    match s {
        Shape::Nil => add_word(out, "null"),
        Shape::Bool(b) => add_truth(out, *b),
        Shape::Int(n) => add_int(out, *n),
        Shape::Str(text) => add_quoted(out, text.as_str()),
        Shape::List { mark, items } => {
            add_if(out, *mark, "readonly ")?;
            add_word(out, "[")?;
            add_shapes(out, items.as_slice())?;
            add_word(out, "]")
        }
        Shape::Mapping { mark, fields } => {
            add_if(out, *mark, "readonly ")?;
            add_word(out, "{")?;
            add_fields(out, fields.as_slice())?;
            add_word(out, "}")
        }
        Shape::Error { detail } => {
            add_word(out, "error(")?;
            add_shape(out, detail)?;
            add_word(out, ")")
        }
        Shape::Function { isolated, graph } => {
            add_if(out, *isolated, "isolated ")?;
            add_word(out, "function{")?;
            add_cases(out, graph.as_slice())?;
            add_word(out, "}")
        }
        Shape::Future { results } => {
            add_word(out, "future{")?;
            add_shapes(out, results.as_slice())?;
            add_word(out, "}")
        }
    }
}

/// Adds the texts of the shapes, with a comma between each two.
#[cycle(shapes)]
fn add_shapes(out: &mut String, shapes: &[Shape]) -> Result<(), Memory>
    ensures { OnOk result (Adds (written out.old) (listed as_written (map shape_text shapes.now)) (written out.new)) }
{
    for (i, s) in shapes.iter().enumerate() {
        add_if(out, i > 0, ",")?;
        add_shape(out, s)?;
    }
    Ok(())
}

/// Adds the members of a mapping, with a comma between each two.
#[cycle(shapes)]
fn add_fields(out: &mut String, fields: &[(Text, Shape)]) -> Result<(), Memory>
    ensures { OnOk result (Adds (written out.old) (listed field_text (map (λ f. (f.0, shape_text f.1)) fields.now)) (written out.new)) }
{
    for (i, (key, s)) in fields.iter().enumerate() {
        add_if(out, i > 0, ",")?;
        add_field(out, key, s)?;
    }
    Ok(())
}

/// Adds a member of a mapping behind its key.
#[cycle(shapes)]
fn add_field(out: &mut String, key: &Text, s: &Shape) -> Result<(), Memory>
    ensures { OnOk result (Adds (written out.old) (field_text (key.now, shape_text s.now)) (written out.new)) }
{
    add_quoted(out, key.as_str())?;
    add_word(out, ":")?;
    add_shape(out, s)
}

/// Adds the pairs of a graph, with a comma between each two.
#[cycle(shapes)]
fn add_cases(out: &mut String, cases: &[Case]) -> Result<(), Memory>
    ensures { OnOk result (Adds (written out.old) (listed as_written (map case_text cases.now)) (written out.new)) }
{
    for (i, case) in cases.iter().enumerate() {
        add_if(out, i > 0, ",")?;
        add_case(out, case)?;
    }
    Ok(())
}

/// Adds a pair of a graph: arguments and what the function answers to them.
#[cycle(shapes)]
fn add_case(out: &mut String, case: &Case) -> Result<(), Memory>
    ensures { OnOk result (Adds (written out.old) (case_text case.now) (written out.new)) }
{
    add_word(out, "(")?;
    add_shapes(out, case.args.as_slice())?;
    add_word(out, ")->")?;
    add_result(out, &case.result)
}

/// Adds the result, or `fail` where there is none.
#[cycle(shapes)]
fn add_result(out: &mut String, answer: &Option<Shape>) -> Result<(), Memory>
    ensures { OnOk result (Adds (written out.old) (result_text (option_map shape_text answer.now)) (written out.new)) }
{
    match answer {
        Some(s) => add_shape(out, s),
        None => add_word(out, "fail"),
    }
}
