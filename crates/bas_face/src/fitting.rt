//! Which arguments may be passed to which formals.

ghost use Rattle.std.specs.Prelude.{◌≡◌};
ghost use Rattle.bas_face.specs.Fits.{fits};

use crate::shape::Shape;

/// Whether an argument fits a formal: a value fits a scalar of its kind, whatever its type or
/// length; a variable, an array or a channel fits its equal alone.
pub fn fits(actual: Shape, formal: Shape) -> bool
    ensures { result ≡ fits actual formal }
{
    match (actual, formal) {
        (Shape::NumValue, Shape::Num(_)) => true,
        (Shape::StrValue, Shape::Str(_)) => true,
        (Shape::NumValue | Shape::StrValue, _) => false,
        _ => actual == formal,
    }
}
