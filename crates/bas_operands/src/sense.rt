//! What the rules ask of what a name is.

ghost use Rattle.std.specs.Prelude.{◌≡◌};
ghost use Rattle.bas_scope.specs.Senses.{sense_told, shape_written};
ghost use Rattle.bas_rules.specs.Naming as rule;

use bas_scope::{Sense, WrittenShape};

/// How many dimensions a shape has.
pub fn dimensions_of(shape: WrittenShape) -> usize
    ensures { result ≡ rule.dimensions_of (shape_written shape) }
{
    match shape {
        WrittenShape::NumArray(_, dimensions) | WrittenShape::StrArray(_, dimensions) => dimensions,
        _ => 0,
    }
}

/// How many dimensions a variable has; 0 where the name is none.
pub fn dimensions_in(sense: Sense<'_>) -> usize
    ensures { result ≡ rule.dimensions_in (sense_told sense.entry) }
{
    match sense {
        Sense::Variable(shape) => dimensions_of(shape),
        _ => 0,
    }
}

/// Whether a name is that of an array.
pub fn is_array(sense: Sense<'_>) -> bool
    ensures { result ≡ rule.is_array (sense_told sense.entry) }
{
    dimensions_in(sense) > 0
}

/// Whether a target with a number of subscripts misuses an array.
pub fn misuses_target(sense: Sense<'_>, subscripts: usize) -> bool
    ensures { result ≡ rule.misuses_target (sense_told sense.entry) subscripts }
{
    match sense {
        Sense::Variable(shape) => subscripts != dimensions_of(shape),
        _ => subscripts > 0,
    }
}

/// Whether a name is that of a function.
pub fn is_function(sense: Sense<'_>) -> bool
    ensures { result ≡ rule.is_function (sense_told sense.entry) }
{
    matches!(sense, Sense::Function(_, _))
}

/// Whether a name is that of a function whose value is not set here.
pub fn is_outside_function(sense: Sense<'_>) -> bool
    ensures { result ≡ rule.is_outside_function (sense_told sense.entry) }
{
    matches!(sense, Sense::Function(_, false))
}

/// Whether what a name is may have arguments.
pub fn takes_args(sense: Sense<'_>) -> bool
    ensures { result ≡ rule.takes_args (sense_told sense.entry) }
{
    match sense {
        Sense::Variable(shape) => dimensions_of(shape) > 0,
        Sense::Sub(_) => false,
        Sense::Function(_, _) => true,
        Sense::Supplied(_) => true,
    }
}
