// What holds of the form of numerals and of the answers to them.
ghost use Rattle.std.specs.Prelude.{◌≡◌, ◌↔◌, ℕ, pos, List, codes};
ghost use Rattle.bas_dec.specs.NumeralForm.{Parts, IsNumeral};
ghost use Rattle.bas_dec.specs.Numeral.{answer_of, numeral_of};

use crate::numeral::Numeral;

/// A text that has the form of a numeral has the answer to its parts.
pub fn form_gives_answer()
    ensures { (text : List ℕ) (parts : Parts) → IsNumeral text parts → numeral_of text ≡ answer_of parts }
{}

/// A text is no numeral exactly where it has the form of one with no parts.
pub fn not_numeral_without_form()
    ensures { (text : List ℕ) → (numeral_of text ≡ Numeral.NotNumeral) ↔ ((parts : Parts) → IsNumeral text parts → ⊥) }
{}

/// A text has the form of a numeral in one way.
pub fn form_has_one_reading()
    ensures { (text : List ℕ) (p q : Parts) → IsNumeral text p → IsNumeral text q → p ≡ q }
{}

/// Worked numerals: a point first and last, an exponent, roundings and their carry, the most digits
/// of a number, and texts that are no numeral.
pub fn worked_numerals()
    ensures point_first { numeral_of (codes ".5") ≡ Numeral.Value (record { coefficient = pos 5; scale = 1 }) }
    ensures point_last { numeral_of (codes "5.") ≡ Numeral.Value (record { coefficient = pos 5; scale = 0 }) }
    ensures exponent { numeral_of (codes "12.50e+1") ≡ Numeral.Value (record { coefficient = pos 125; scale = 0 }) }
    ensures half_up { numeral_of (codes "5E-19") ≡ Numeral.Value (record { coefficient = pos 1; scale = 18 }) }
    ensures below_half { numeral_of (codes "1E-19") ≡ Numeral.Value (record { coefficient = pos 0; scale = 0 }) }
    ensures carry { numeral_of (codes "1.9999999999999999995") ≡ Numeral.Value (record { coefficient = pos 2; scale = 0 }) }
    ensures most_digits { numeral_of (codes "99999999999999999999999999999999999999") ≡ Numeral.Value (record { coefficient = pos 99999999999999999999999999999999999999; scale = 0 }) }
    ensures too_many_digits { numeral_of (codes "999999999999999999999999999999999999999") ≡ Numeral.TooLarge }
    ensures long_exponent { numeral_of (codes "1E0001") ≡ Numeral.TooLarge }
    ensures point_alone { numeral_of (codes ".") ≡ Numeral.NotNumeral }
    ensures no_exponent { numeral_of (codes "1E+") ≡ Numeral.NotNumeral }
    ensures signed { numeral_of (codes "-5") ≡ Numeral.NotNumeral }
{}
