//! Operands of the kinds that an operation takes.
ghost use Rattle.plain_structures.specs.Operands.{AreStructureAndInt, AreStructureAndText, AreTextAndInt, IsStructure};

use bal_base::Text;
use value_model::Value;

/// A structure and an int, where the operands are such.
pub fn structure_and_int(operands: &[Value]) -> Option<(u32, i64)>
    ensures { AreStructureAndInt operands.now result }
{
    match operands {
        [Value::Struct(n), Value::Int(i)] => Some((*n, *i)),
        _ => None,
    }
}

/// A structure and a string, where the operands are such.
pub fn structure_and_text(operands: &[Value]) -> Option<(u32, Text)>
    ensures { AreStructureAndText operands.now result }
{
    match operands {
        [Value::Struct(n), Value::Str(t)] => Some((*n, t.share())),
        _ => None,
    }
}

/// A string and an int, where the operands are such.
pub fn text_and_int(operands: &[Value]) -> Option<(Text, i64)>
    ensures { AreTextAndInt operands.now result }
{
    match operands {
        [Value::Str(t), Value::Int(i)] => Some((t.share(), *i)),
        _ => None,
    }
}

/// A structure, where it is the one operand.
pub fn structure(operands: &[Value]) -> Option<u32>
    ensures { IsStructure operands.now result }
{
    match operands {
        [Value::Struct(n)] => Some(*n),
        _ => None,
    }
}
