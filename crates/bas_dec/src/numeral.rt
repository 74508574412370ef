// Numerals: which bytes are one, and what number it is.
mod laws;

ghost use Rattle.std.specs.Prelude.{◌≡◌, ℕ, ◌+◌, ◌-◌, ◌*◌, ◌/◌, ◌%◌, ◌^◌, ◌<◌, ◌≤◌, pos, List, length, ◌++◌, MatchOption, Some, None, if◌then◌else◌};
ghost use Rattle.std.specs.List.{prefix_len, take_while};
ghost use Rattle.std.specs.Char.{is_ascii_digit};
ghost use Rattle.bas_dec.specs.Number.{low};
ghost use Rattle.bas_dec.specs.NumeralForm.{AreDigits};
ghost use Rattle.bas_dec.specs.Numeral.{number_written, nearest_number, answer_of, value_or_too_large, behind_digits, fraction_of, is_digits as is_digits_of, sign_of, exponent_of, numeral_of, IsAnswer};

use crate::PLACES;
use crate::number::Dec;
use crate::wide::Wide;
pub use laws::{
    form_gives_answer, form_has_one_reading, not_numeral_without_form, worked_numerals,
};

/// The most digits that the mantissa of a numeral has, zeros at its front too.
pub const MANTISSA_DIGITS: usize = 60;

/// The most digits that the exponent of a numeral has, zeros at its front too.
pub const EXPONENT_DIGITS: usize = 3;

/// What a text is as a numeral.
#[derive(Clone, Copy, Debug, PartialEq, Eq)]
pub enum Numeral {
    /// A numeral, and the number next to its value.
    Value(Dec),
    /// A numeral with too many digits, or next to no number.
    TooLarge,
    /// No numeral.
    NotNumeral,
}

/// What `text` is as a numeral.
///
/// A numeral is digits, perhaps with a point among them, before or behind them, and perhaps an
/// exponent: an `E` or `e`, perhaps a sign, and digits. Its value is rounded to `PLACES` places,
/// to nearest, and away from zero at a half.
pub fn read_numeral(text: &[u8]) -> Numeral
    ensures answer { result ≡ numeral_of text.now }
    ensures form { IsAnswer text.now result }
{
    answer_to(text)
}

/// The answer to `text`.
#[tactic(auto, unfolding(crate::specs::Numeral::numeral_of))]
fn answer_to(text: &[u8]) -> Numeral
    ensures { result ≡ numeral_of text.now }
{
    let (whole, rest) = split_digits(text);
    let (fraction, rest) = split_fraction(rest);
    match exponent(rest) {
        Some((negative, digits)) if whole.len() + fraction.len() > 0 => answer(
            whole, fraction, negative, digits,
        ),
        _ => Numeral::NotNumeral,
    }
}

/// How many digits `text` begins with.
fn digit_run(text: &[u8]) -> usize
    ensures value { result ≡ prefix_len is_ascii_digit text.now }
    ensures bound { result ≤ length text.now }
{
    text.iter().take_while(|c| c.is_ascii_digit()).count()
}

/// The digits that `text` begins with, and the rest.
#[tactic(auto, using(crate::proofs::DigitLemmas::leading_digits))]
fn split_digits(text: &[u8]) -> (&[u8], &[u8])
    ensures front { result.0.now ≡ take_while is_ascii_digit text.now }
    ensures back { result.1.now ≡ behind_digits text.now }
    ensures digits { AreDigits result.0.now }
{
    text.split_at(digit_run(text))
}

/// The digits behind a point, and the rest.
fn split_fraction(text: &[u8]) -> (&[u8], &[u8])
    ensures front { result.0.now ≡ (fraction_of text.now).0 }
    ensures back { result.1.now ≡ (fraction_of text.now).1 }
    ensures digits { AreDigits result.0.now }
{
    match text {
        [b'.', behind @ ..] => split_digits(behind),
        _ => text.split_at(0),
    }
}

/// Whether a minus stands first, and what stands behind a sign.
fn split_sign(text: &[u8]) -> (bool, &[u8])
    ensures sign { result.0 ≡ (sign_of text.now).0 }
    ensures rest { result.1.now ≡ (sign_of text.now).1 }
{
    match text {
        [b'-', rest @ ..] => (true, rest),
        [b'+', rest @ ..] => (false, rest),
        _ => (false, text),
    }
}

/// Whether `text` is digits alone, and at least one.
fn is_digits(text: &[u8]) -> bool
    ensures { result ≡ is_digits_of text.now }
{
    !text.is_empty() && digit_run(text) == text.len()
}

/// The sign and the digits of an exponent, or `None` for a text that is neither empty nor an exponent.
#[tactic(auto, using(crate::proofs::DigitLemmas::all_digits))]
fn exponent(text: &[u8]) -> Option<(bool, &[u8])>
    ensures value { MatchOption result (exponent_of text.now ≡ None) (λ e. exponent_of text.now ≡ Some (e.0, e.1.now)) }
    ensures digits { MatchOption result (Unit {0}) (λ e. AreDigits e.1.now) }
{
    match text {
        [] => Some((false, text)),
        [b'E' | b'e', rest @ ..] => {
            let (negative, digits) = split_sign(rest);
            if is_digits(digits) {
                Some((negative, digits))
            } else {
                None
            }
        }
        _ => None,
    }
}

/// The number that the digits of an exponent write.
#[tactic(auto, using(crate::proofs::DigitLemmas::digit_at))]
fn exponent_size(digits: &[u8]) -> usize
    requires few { length digits.now ≤ EXPONENT_DIGITS }
    requires digits { AreDigits digits.now }
    ensures value { result ≡ number_written digits.now }
    ensures bound { result < 1000 }
{
    let mut size = 0;
    for digit in digits {
        size = size * 10 + usize::from(*digit - b'0');
    }
    size
}

/// The answer to a numeral of these parts.
fn answer(whole: &[u8], fraction: &[u8], negative: bool, exponent: &[u8]) -> Numeral
    requires whole { AreDigits whole.now }
    requires fraction { AreDigits fraction.now }
    requires exponent { AreDigits exponent.now }
    ensures { result ≡ answer_of (record { whole = whole.now; fraction = fraction.now; negative = negative; exponent = exponent.now }) }
{
    // No sum of lengths that may pass the size of a word.
    if whole.len() > MANTISSA_DIGITS
        || whole.len() + fraction.len() > MANTISSA_DIGITS
        || exponent.len() > EXPONENT_DIGITS
    {
        return Numeral::TooLarge;
    }
    let mut mantissa = Wide::zero();
    mantissa.push_all(whole, 0);
    mantissa.push_all(fraction, whole.len());
    let (zeros, lower) = zeros_and_places(negative, exponent_size(exponent));
    let places = lower + fraction.len();
    shifted(
        mantissa,
        zeros.saturating_sub(places),
        places.saturating_sub(zeros),
    )
}

/// How many zeros an exponent puts behind the digits, and by how many places it moves the point up.
fn zeros_and_places(negative: bool, exponent: usize) -> (usize, usize)
    ensures zeros { result.0 ≡ (if negative then 0 else exponent) }
    ensures places { result.1 ≡ (if negative then exponent else 0) }
{
    if negative {
        (0, exponent)
    } else {
        (exponent, 0)
    }
}

/// The answer to the value `mantissa * 10^zeros / 10^places`.
fn shifted(mut mantissa: Wide, zeros: usize, places: usize) -> Numeral
    requires few { mantissa < 10 ^ 60 }
    requires one_way { 0 < zeros → places ≡ 0 }
    ensures { result ≡ value_or_too_large (nearest_number (mantissa * 10 ^ zeros) places) }
{
    if !mantissa.raise(zeros) {
        return Numeral::TooLarge;
    }
    match nearest(mantissa, places) {
        Some(value) => Numeral::Value(value),
        None => Numeral::TooLarge,
    }
}

/// The number next to the value `size / 10^places`, if there is one.
fn nearest(mut size: Wide, places: usize) -> Option<Dec>
    requires { size < 10 ^ 60 }
    ensures { result ≡ nearest_number size places }
{
    let most = usize::from(PLACES);
    size.round(places.saturating_sub(most));
    number(size, places.min(most) as u8)
}

/// The number of the value `size / 10^scale`, if there is one.
fn number(mut size: Wide, mut scale: u8) -> Option<Dec>
    ensures { result ≡ low (pos size) scale }
{
    loop {
        if let Some(coefficient) = size.small() {
            return Dec::of_parts(coefficient as i128, scale);
        }
        if scale == 0 {
            return None;
        }
        if size.last() != 0 {
            return None;
        }
        size.pop();
        scale -= 1;
    }
}
