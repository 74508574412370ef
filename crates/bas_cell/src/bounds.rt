//! The elements of arrays: how many there are between the bounds, and the number of each.

ghost use Rattle.std.specs.Prelude.{◌≡◌, true, ◌<◌, ◌≤◌, IfSome};
ghost use Rattle.bas_cell.specs.Bounds.{is_range, are_bounds, extent, elements, row_of, element_number};

/// The most dimensions of an array.
pub const MOST_DIMENSIONS: u8 = 3;

/// The farthest bound of an array from 0.
pub const FARTHEST_BOUND: i64 = 1_000_000;

/// The most elements of an array.
pub const MOST_ELEMENTS: u32 = 1_000_000;

/// How many elements a dimension has.
fn extent(bound: (i32, i32)) -> u32
    requires { is_range bound ≡ true }
    ensures same { result ≡ extent bound }
    ensures some { 1 ≤ result }
{
    (i64::from(bound.1) - i64::from(bound.0) + 1) as u32
}

/// How many elements there are between the bounds of all dimensions.
#[tactic(auto, using(crate::proofs::Elements::first_range, crate::proofs::Elements::rest_bounds, crate::proofs::Elements::few))]
pub(crate) fn elements(bounds: &[(i32, i32)]) -> u32
    requires { are_bounds bounds.now ≡ true }
    ensures same { result ≡ elements bounds.now }
    ensures some { 1 ≤ result }
{
    match bounds.split_first() {
        None => 1,
        Some((first, rest)) => extent(*first) * elements(rest),
    }
}

/// The row of a subscript, from 0, or `None` outside its bounds.
fn row_of(bound: (i32, i32), subscript: i64) -> Option<u32>
    requires { is_range bound ≡ true }
    ensures { result ≡ row_of bound subscript }
{
    let low = i64::from(bound.0);
    if subscript < low || subscript > i64::from(bound.1) {
        return None;
    }
    Some(subscript.abs_diff(low) as u32)
}

/// The number of an element, from 0, or `None` outside the bounds. The elements stand row by row.
#[tactic(auto, using(crate::proofs::Elements::first_range, crate::proofs::Elements::rest_bounds, crate::proofs::Elements::few))]
pub(crate) fn element_number(bounds: &[(i32, i32)], subscripts: &[i64]) -> Option<u32>
    requires { are_bounds bounds.now ≡ true }
    ensures number { result ≡ element_number bounds.now subscripts.now }
    ensures inside { IfSome result (λ n. n < elements bounds.now) }
{
    let Some((bound, bounds)) = bounds.split_first() else {
        return if subscripts.is_empty() { Some(0) } else { None };
    };
    let (subscript, subscripts) = subscripts.split_first()?;
    let row = row_of(*bound, *subscript)?;
    let element = element_number(bounds, subscripts)?;
    Some(row * elements(bounds) + element)
}
