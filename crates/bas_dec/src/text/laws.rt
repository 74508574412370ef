// What holds of the text of a printed number.
ghost use Rattle.std.specs.Prelude.{◌≡◌, [], ◌∷◌, ◌++◌, pos, neg_ℤ, unsigned_abs, codes};
ghost use Rattle.bas_dec.specs.Number.{Number, IsNumber};
ghost use Rattle.bas_dec.specs.Numeral.{numeral_of};
ghost use Rattle.bas_dec.specs.Text.{sign_byte, size_text, text_of};

use crate::numeral::Numeral;

/// The text of a number is its sign, the text of its size, and a space; and the text of its size,
/// read as a numeral, is its size again.
pub fn printed_number_reads_back()
    ensures parts { (x : Number) → text_of x ≡ sign_byte x.coefficient ∷ (size_text (unsigned_abs x.coefficient) x.scale ++ 32 ∷ []) }
    ensures size { (x : Number) → IsNumber x → numeral_of (size_text (unsigned_abs x.coefficient) x.scale) ≡ Numeral.Value (record { coefficient = pos (unsigned_abs x.coefficient); scale = x.scale }) }
{}

/// Worked texts: zero, a fraction below 1, a minus, zeros behind the point.
pub fn worked_texts()
    ensures zero { text_of (record { coefficient = pos 0; scale = 0 }) ≡ codes " 0 " }
    ensures whole { text_of (record { coefficient = pos 120; scale = 0 }) ≡ codes " 120 " }
    ensures fraction { text_of (record { coefficient = pos 125; scale = 1 }) ≡ codes " 12.5 " }
    ensures below_one { text_of (record { coefficient = neg_ℤ (pos 25); scale = 2 }) ≡ codes "-.25 " }
    ensures zeros { text_of (record { coefficient = pos 1005; scale = 4 }) ≡ codes " .1005 " }
    ensures least { text_of (record { coefficient = pos 1; scale = 18 }) ≡ codes " .000000000000000001 " }
{}
