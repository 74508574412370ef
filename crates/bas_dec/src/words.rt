// Coefficients in words of 128 bits.
ghost use Rattle.std.specs.Prelude.{◌≡◌, ℕ, ◌+◌, ◌-◌, ◌*◌, ◌/◌, ◌%◌, ◌^◌, ◌<◌, ◌≤◌, ℤ, pos, neg_ℤ, ◌+ℤ◌, ◌-ℤ◌, ◌*ℤ◌, unsigned_abs, IfOk};
ghost use Rattle.std.specs.Int.{saturate_signed, w64, int_div_euclid};
ghost use Rattle.bas_dec.specs.Number.{limit, signed as signed_of, rounded as rounded_of, rounded_quotient as rounded_quotient_of};
ghost use Rattle.bas_dec.specs.Arithmetic.{bounded, kept_places as kept_places_of};
ghost use Rattle.bas_dec.specs.Fraction.{floor, cut, plus, half, ratio, over, whole};

use crate::SHORT;
use crate::fault::DecFault;

/// 10^38, which the size of a coefficient stays below.
pub const LIMIT: u128 = 100_000_000_000_000_000_000_000_000_000_000_000_000;

/// The powers of ten up to 10^38, by their exponents.
static TENS: [u128; 39] = [
    1,
    10,
    100,
    1_000,
    10_000,
    100_000,
    1_000_000,
    10_000_000,
    100_000_000,
    1_000_000_000,
    10_000_000_000,
    100_000_000_000,
    1_000_000_000_000,
    10_000_000_000_000,
    100_000_000_000_000,
    1_000_000_000_000_000,
    10_000_000_000_000_000,
    100_000_000_000_000_000,
    1_000_000_000_000_000_000,
    10_000_000_000_000_000_000,
    100_000_000_000_000_000_000,
    1_000_000_000_000_000_000_000,
    10_000_000_000_000_000_000_000,
    100_000_000_000_000_000_000_000,
    1_000_000_000_000_000_000_000_000,
    10_000_000_000_000_000_000_000_000,
    100_000_000_000_000_000_000_000_000,
    1_000_000_000_000_000_000_000_000_000,
    10_000_000_000_000_000_000_000_000_000,
    100_000_000_000_000_000_000_000_000_000,
    1_000_000_000_000_000_000_000_000_000_000,
    10_000_000_000_000_000_000_000_000_000_000,
    100_000_000_000_000_000_000_000_000_000_000,
    1_000_000_000_000_000_000_000_000_000_000_000,
    10_000_000_000_000_000_000_000_000_000_000_000,
    100_000_000_000_000_000_000_000_000_000_000_000,
    1_000_000_000_000_000_000_000_000_000_000_000_000,
    10_000_000_000_000_000_000_000_000_000_000_000_000,
    100_000_000_000_000_000_000_000_000_000_000_000_000,
];

/// 10 to the power of `exponent`, which is above zero and at most 10^38.
#[tactic(auto, using(crate::proofs::Powers::ten_to_bounds))]
pub fn ten_to(exponent: u8) -> u128
    requires { exponent ≤ 38 }
    ensures value { result ≡ 10 ^ exponent }
    ensures positive { 0 < result }
    ensures bound { result ≤ limit }
{
    ten_at(exponent)
}

#[tactic(auto, using(crate::proofs::Tens::tens_rule))]
fn ten_at(exponent: u8) -> u128
    requires { exponent ≤ 38 }
    ensures { result ≡ 10 ^ exponent }
{
    TENS[usize::from(exponent)]
}

/// The whole number of that size, below zero where `negative` is set.
pub fn signed(negative: bool, size: u128) -> i128
    requires { size < limit }
    ensures { result ≡ signed_of negative size }
{
    let coefficient = size as i128;
    if negative { -coefficient } else { coefficient }
}

/// `a + b`, or `Overflow` where its size reaches 10^38.
pub fn sum(a: i128, b: i128) -> Result<i128, DecFault>
    ensures { result ≡ bounded (a +ℤ b) }
{
    match a.checked_add(b) {
        Some(c) if c.unsigned_abs() < LIMIT => Ok(c),
        _ => Err(DecFault::Overflow),
    }
}

/// `a - b`, or `Overflow` where its size reaches 10^38.
pub fn difference(a: i128, b: i128) -> Result<i128, DecFault>
    ensures { result ≡ bounded (a -ℤ b) }
{
    match a.checked_sub(b) {
        Some(c) if c.unsigned_abs() < LIMIT => Ok(c),
        _ => Err(DecFault::Overflow),
    }
}

/// `a * b`, or `Overflow` where its size reaches 10^38.
pub fn product(a: i128, b: i128) -> Result<i128, DecFault>
    ensures { result ≡ bounded (a *ℤ b) }
{
    match a.checked_mul(b) {
        Some(c) if c.unsigned_abs() < LIMIT => Ok(c),
        _ => Err(DecFault::Overflow),
    }
}

/// `coefficient * 10^zeros`, or `Overflow` where its size reaches 10^38.
#[tactic(auto, using(crate::proofs::Bounds::raised_beyond, crate::proofs::Bounds::raised_positive))]
pub fn raised(coefficient: i128, zeros: u8) -> Result<i128, DecFault>
    ensures value { result ≡ bounded (coefficient *ℤ pos (10 ^ zeros)) }
    ensures small { IfOk result (λ c. unsigned_abs c < limit) }
    ensures nonzero { IfOk result (λ c. 0 < unsigned_abs coefficient → 0 < unsigned_abs c) }
{
    if coefficient == 0 {
        return Ok(0);
    }
    if zeros > 38 {
        return Err(DecFault::Overflow);
    }
    product(coefficient, ten_to(zeros) as i128)
}

/// The places of a product or a quotient of numbers with these places.
pub fn kept_places(s: u8, t: u8) -> u8
    ensures { result ≡ kept_places_of s t }
{
    SHORT.max(s).max(t)
}

/// `p / q`, rounded to the nearest whole number, and away from zero at a half.
pub fn rounded(p: i128, q: u128) -> i128
    requires size { unsigned_abs p < limit }
    requires divisor { 0 < q }
    requires divisor_size { q ≤ limit }
    ensures { result ≡ rounded_of p q }
{
    signed(p < 0, (2 * p.unsigned_abs() + q) / (2 * q))
}

/// `p / q`, rounded likewise.
pub fn rounded_quotient(p: i128, q: i128) -> i128
    requires size { unsigned_abs p < limit }
    requires divisor { 0 < unsigned_abs q }
    requires divisor_size { unsigned_abs q < limit }
    ensures { result ≡ rounded_quotient_of p q }
{
    rounded(if q < 0 { -p } else { p }, q.unsigned_abs())
}

/// The greatest whole number that is not above `p / q + 1 / 2`.
#[tactic(auto, using(crate::proofs::Floors::half_up_above, crate::proofs::Floors::half_up_below))]
pub fn half_up(p: i128, q: u128) -> i128
    requires size { unsigned_abs p < limit }
    requires divisor { 0 < q }
    requires divisor_size { q ≤ limit }
    ensures { result ≡ floor (plus (ratio p q) half) }
{
    let twice = 2 * p.unsigned_abs();
    if p < 0 {
        signed(true, (twice + q - 1) / (2 * q))
    } else {
        signed(false, (twice + q) / (2 * q))
    }
}

/// `a` without whole multiples of `b`, whose number is rounded down.
#[tactic(auto, using(crate::proofs::Remainders::modulo_above))]
pub fn modulo(a: i128, b: i128) -> i128
    requires size { unsigned_abs a < limit }
    requires divisor { 0 < unsigned_abs b }
    requires divisor_size { unsigned_abs b < limit }
    ensures { result ≡ a -ℤ b *ℤ floor (over (whole a) (whole b)) }
{
    if b < 0 {
        -(-a).rem_euclid(-b)
    } else {
        a.rem_euclid(b)
    }
}

/// `a` without whole multiples of `b`, whose number is cut towards zero.
#[tactic(auto, using(crate::proofs::Remainders::remainder_is))]
pub fn remainder(a: i128, b: i128) -> i128
    requires size { unsigned_abs a < limit }
    requires divisor { 0 < unsigned_abs b }
    requires divisor_size { unsigned_abs b < limit }
    ensures { result ≡ a -ℤ b *ℤ cut (over (whole a) (whole b)) }
{
    a % b
}

/// The nearest value of 64 bits.
pub fn saturated(n: i128) -> i64
    ensures { result ≡ saturate_signed w64 n }
{
    if n > i128::from(i64::MAX) {
        i64::MAX
    } else if n < i128::from(i64::MIN) {
        i64::MIN
    } else {
        n as i64
    }
}
