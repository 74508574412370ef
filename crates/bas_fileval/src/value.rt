ghost use Rattle.std.specs.Prelude.{◌≡◌};
ghost use Rattle.bas_fileval.specs.Value.{kind_of};
ghost use Rattle.bas_fileval.specs.Plain.{plain_kind, plain_value};

use bas_dec::Dec;
use bas_text::StrVal;

/// What a value is.
#[derive(Clone, Copy, Debug, PartialEq, Eq)]
pub enum Kind {
    /// A decimal number.
    Number,
    /// A string of bytes.
    Text,
}

/// A number, or a string of at most 65,535 bytes.
#[derive(Debug, Drop)]
pub enum Value {
    /// A decimal number.
    Num(Dec),
    /// A string of bytes.
    Text(StrVal),
}

impl Value {
    /// Whether it is a number or a string. It takes constant time.
    pub fn kind(&self) -> Kind
        ensures { plain_kind result ≡ kind_of (plain_value self.now) }
    {
        match self {
            Value::Num(_) => Kind::Number,
            Value::Text(_) => Kind::Text,
        }
    }
}
