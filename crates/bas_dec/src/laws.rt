// Laws of numbers: each holds for all numbers, and its function does nothing.
mod rows;

ghost use Rattle.std.specs.Prelude.{◌≡◌, ℕ, ◌^◌, ◌<◌, ◌↔◌, ℤ, pos, ◌*ℤ◌, Some, Ok};
ghost use Rattle.bas_dec.specs.Number.{Number, IsNumber, low};
ghost use Rattle.std.specs.Cmp.{IsTotalOrder};
ghost use Rattle.bas_dec.specs.Arithmetic.{sum_of, difference_of, product_of, order_of};
ghost use Rattle.bas_dec.specs.Fraction.{Fraction, SameValue, value_of, plus, minus, number_equal_to};

pub use rows::{worked_limits, worked_quotients, worked_roundings};
use std::cmp::Ordering;

/// `low c s` is a number exactly where it is in lowest form and has the value `c / 10^s`.
pub fn low_finds_the_number()
    ensures { (c : ℤ) (s : ℕ) (x : Number) → (low c s ≡ Some x) ↔ (IsNumber x × (x.coefficient *ℤ pos (10 ^ s) ≡ c *ℤ pos (10 ^ x.scale))) }
{}

/// Two numbers of one value are the same.
pub fn numbers_have_one_form()
    ensures { (x y : Number) → IsNumber x → IsNumber y → x.coefficient *ℤ pos (10 ^ y.scale) ≡ y.coefficient *ℤ pos (10 ^ x.scale) → x ≡ y }
{}

/// `number_equal_to` is a number exactly where it has the value of the fraction.
pub fn fractions_have_one_number()
    ensures { (a : Fraction) (x : Number) → 0 < a.denominator → (number_equal_to a ≡ Some x) ↔ (IsNumber x × SameValue (value_of x) a) }
{}

/// The order of numbers is total, and numbers that it calls equal are the same.
pub fn numbers_are_in_order()
    ensures total { IsTotalOrder order_of }
    ensures equal { (x y : Number) → IsNumber x → IsNumber y → (order_of x y ≡ Ordering.Equal) ↔ (x ≡ y) }
{}

/// A sum does not depend on the order of its operands, with its faults.
pub fn sums_commute()
    ensures { (x y : Number) → sum_of x y ≡ sum_of y x }
{}

/// A product does not depend on the order of its operands, with its faults.
pub fn products_commute()
    ensures { (x y : Number) → product_of x y ≡ product_of y x }
{}

/// A sum and a difference have exactly the value of the sum and the difference of their operands.
pub fn sums_are_exact()
    ensures sum { (x y z : Number) → sum_of x y ≡ Ok z → IsNumber z × SameValue (value_of z) (plus (value_of x) (value_of y)) }
    ensures difference { (x y z : Number) → difference_of x y ≡ Ok z → IsNumber z × SameValue (value_of z) (minus (value_of x) (value_of y)) }
{}

/// To add a number and subtract it again gives the first one back, where neither overflows.
pub fn subtraction_undoes_addition()
    ensures { (x y z w : Number) → IsNumber x → sum_of x y ≡ Ok z → difference_of z y ≡ Ok w → w ≡ x }
{}
