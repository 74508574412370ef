//! Which arguments may be passed to which formals.

ghost use Rattle.std.specs.Prelude.{◌≡◌};
ghost use Rattle.bas_face.specs.Fits as fitting;
ghost use Rattle.bas_scope.specs.Senses.{shape_written, type_written};
ghost use Rattle.bas_rules.specs.Calling.{element_of as element};

use bas_scope::{WrittenShape, WrittenType};

fn same_type(a: WrittenType, b: WrittenType) -> bool
    ensures { result ≡ fitting.same_type (type_written a) (type_written b) }
{
    match (a, b) {
        (WrittenType::General, WrittenType::General) => true,
        (WrittenType::Fixed(whole, places), WrittenType::Fixed(other_whole, other_places)) => {
            whole == other_whole && places == other_places
        }
        _ => false,
    }
}

/// Whether an argument of a shape may be passed to a formal of a shape.
pub fn fits(actual: WrittenShape, formal: WrittenShape) -> bool
    ensures { result ≡ fitting.fits (shape_written actual) (shape_written formal) }
{
    match (actual, formal) {
        (WrittenShape::NumValue, WrittenShape::Num(_)) => true,
        (WrittenShape::StrValue, WrittenShape::Str(_)) => true,
        (WrittenShape::Num(kind), WrittenShape::Num(other)) => same_type(kind, other),
        (WrittenShape::Str(length), WrittenShape::Str(other)) => length == other,
        (WrittenShape::NumArray(kind, n), WrittenShape::NumArray(other, m)) => {
            same_type(kind, other) && n == m
        }
        (WrittenShape::StrArray(length, n), WrittenShape::StrArray(other, m)) => {
            length == other && n == m
        }
        (WrittenShape::Channel, WrittenShape::Channel) => true,
        _ => false,
    }
}

/// The shape of an element of an array; any other shape stays.
pub fn element_of(shape: WrittenShape) -> WrittenShape
    ensures { shape_written result ≡ element (shape_written shape) }
{
    match shape {
        WrittenShape::NumArray(kind, _) => WrittenShape::Num(kind),
        WrittenShape::StrArray(length, _) => WrittenShape::Str(length),
        other => other,
    }
}
