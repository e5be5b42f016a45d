//! Values.
ghost use Rattle.std.specs.Prelude.{◌≡◌};

use bal_base::Text;

/// A value. A structure is a list or a mapping. It, an error and a function value are the ones with these numbers in
/// the heap, where each of the three is numbered by itself.
#[derive(Drop)]
pub enum Value {
    /// Nil.
    Nil,
    /// A boolean.
    Bool(bool),
    /// An int.
    Int(i64),
    /// A string.
    Str(Text),
    /// A list or a mapping.
    Struct(u32),
    /// An error.
    Error(u32),
    /// A function value.
    Function(u32),
    /// The future of a strand, whose first frame is of the unit.
    Future { strand: u32, unit: u32 },
}

impl Value {
    /// The same value again, which shares its text. Takes no memory.
    pub fn share(&self) -> Value
        ensures { result ≡ self.now }
    {
        match self {
            Value::Nil => Value::Nil,
            Value::Bool(b) => Value::Bool(*b),
            Value::Int(n) => Value::Int(*n),
            Value::Str(text) => Value::Str(text.share()),
            Value::Struct(n) => Value::Struct(*n),
            Value::Error(n) => Value::Error(*n),
            Value::Function(n) => Value::Function(*n),
            Value::Future { strand, unit } => Value::Future {
                strand: *strand,
                unit: *unit,
            },
        }
    }
}
