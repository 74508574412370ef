//! What a cell of a shape holds, and what becomes of a value that is stored there.

ghost use Rattle.std.specs.Prelude.{◌≡◌, true, ◌≤◌, length};
ghost use Rattle.bas_fileval.specs.Plain.{plain_kind};
ghost use Rattle.bas_cell.specs.Holding.{kind_held, number_type, longest_text, number_held};
ghost use Rattle.bas_cell.specs.Live.{dimensions, bounds_of, can_be_made};

use bas_base::Ex;
use bas_dec::{Dec, NumType};
use bas_face::{Cell, Shape};
use bas_fileval::Kind;
use bas_text::MAX_STRING_LEN;

pub(crate) fn kind_held(shape: Shape) -> Kind
    ensures { plain_kind result ≡ kind_held shape }
{
    match shape {
        Shape::NumValue | Shape::Num(_) | Shape::NumArray(_, _) | Shape::Channel => Kind::Number,
        Shape::StrValue | Shape::Str(_) | Shape::StrArray(_, _) => Kind::Text,
    }
}

pub(crate) fn number_type(shape: Shape) -> NumType
    ensures { result ≡ number_type shape }
{
    match shape {
        Shape::Num(number_type) | Shape::NumArray(number_type, _) => number_type,
        _ => NumType::General,
    }
}

/// The most bytes of a string that is held.
pub(crate) fn longest_text(shape: Shape) -> usize
    ensures { result ≡ longest_text shape }
{
    match shape {
        Shape::Str(length) | Shape::StrArray(length, _) => usize::from(length),
        _ => MAX_STRING_LEN,
    }
}

fn dimensions(shape: Shape) -> u8
    ensures { result ≡ dimensions shape }
{
    match shape {
        Shape::NumArray(_, dimensions) | Shape::StrArray(_, dimensions) => dimensions,
        _ => 0,
    }
}

/// The bounds of the dimensions, none for a scalar.
#[tactic(auto, using(crate::proofs::Elements::dimensions_few))]
pub(crate) fn bounds_of(cell: &Cell) -> &[(i32, i32)]
    requires { can_be_made cell.now ≡ true }
    ensures { result.now ≡ bounds_of cell.now }
{
    &cell.bounds[..usize::from(dimensions(cell.shape))]
}

/// The number as a variable of a type holds it, or exception 1010.
pub(crate) fn number_held(number_type: NumType, x: Dec) -> Result<Dec, Ex>
    ensures { result ≡ number_held number_type x }
{
    match number_type {
        NumType::General => Ok(x),
        NumType::Fix(digits) => x.fit(digits).map_err(|_| Ex(1010)),
    }
}
