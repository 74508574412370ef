// Worked examples.
ghost use Rattle.std.specs.Prelude.{◌≡◌, ◌^◌, ◌-◌, ℤ, pos, negsuc, Ok, Err};
ghost use Rattle.bas_dec.specs.Number.{Number};
ghost use Rattle.bas_dec.specs.Arithmetic.{and_then, sum_of, product_of, quotient_of, negated};
ghost use Rattle.bas_dec.specs.Fraction.{floor_of, whole_part_of, fraction_part_of, ceiling_of, rounded_to, truncated_to, whole_of, modulo_of, remainder_of};
ghost use Rattle.bas_dec.specs.Power.{power_of};
ghost use Rattle.bas_dec.specs.Fixed.{fitted};

use crate::DecFault;

/// Quotients and products at the last place.
#[tactic(auto, unfolding(crate::specs::Number::low, crate::specs::Number::stripped, crate::specs::Arithmetic::quotient_of, crate::specs::Arithmetic::product_of))]
pub fn worked_quotients()
    ensures third { quotient_of (record { coefficient = pos 1; scale = 0 }) (record { coefficient = pos 3; scale = 0 }) ≡ Ok (record { coefficient = pos 333333333333333333; scale = 18 }) }
    ensures two_thirds { quotient_of (record { coefficient = pos 2; scale = 0 }) (record { coefficient = pos 3; scale = 0 }) ≡ Ok (record { coefficient = pos 666666666666666667; scale = 18 }) }
    ensures minus_two_thirds { quotient_of (record { coefficient = pos 2; scale = 0 }) (record { coefficient = negsuc 2; scale = 0 }) ≡ Ok (record { coefficient = negsuc 666666666666666666; scale = 18 }) }
    ensures by_zero { quotient_of (record { coefficient = pos (10 ^ 37); scale = 0 }) (record { coefficient = pos 0; scale = 0 }) ≡ Err DecFault.ZeroDivide }
    ensures tie { product_of (record { coefficient = pos 1; scale = 9 }) (record { coefficient = negsuc 4; scale = 10 }) ≡ Ok (record { coefficient = negsuc 0; scale = 18 }) }
    ensures below_tie { product_of (record { coefficient = pos 1; scale = 9 }) (record { coefficient = pos 4; scale = 10 }) ≡ Ok (record { coefficient = pos 0; scale = 0 }) }
{}

/// 38 nines are the greatest whole number, and -2^2 is the opposite of 2^2.
#[tactic(auto, unfolding(crate::specs::Number::low, crate::specs::Number::stripped, crate::specs::Arithmetic::sum_of, crate::specs::Arithmetic::quotient_of, crate::specs::Arithmetic::product_of, crate::specs::Power::power_of, crate::specs::Power::left_product))]
pub fn worked_limits()
    ensures nines { sum_of (record { coefficient = pos (10 ^ 38 - 2); scale = 0 }) (record { coefficient = pos 1; scale = 0 }) ≡ Ok (record { coefficient = pos (10 ^ 38 - 1); scale = 0 }) }
    ensures one_more { sum_of (record { coefficient = pos (10 ^ 38 - 1); scale = 0 }) (record { coefficient = pos 1; scale = 0 }) ≡ Err DecFault.Overflow }
    ensures minus_square { and_then (power_of (record { coefficient = pos 2; scale = 0 }) (record { coefficient = pos 2; scale = 0 })) (λ x. Ok (negated x)) ≡ Ok (record { coefficient = negsuc 3; scale = 0 }) }
    ensures quarter { power_of (record { coefficient = pos 2; scale = 0 }) (record { coefficient = negsuc 1; scale = 0 }) ≡ Ok (record { coefficient = pos 25; scale = 2 }) }
{}

/// Whole parts of -2.5, roundings and remainders.
#[tactic(auto, unfolding(crate::specs::Number::low, crate::specs::Number::stripped, crate::specs::Fraction::number_equal_to, crate::specs::Fraction::floor_of, crate::specs::Fraction::whole_part_of, crate::specs::Fraction::fraction_part_of, crate::specs::Fraction::ceiling_of, crate::specs::Fraction::rounded_to, crate::specs::Fraction::truncated_to, crate::specs::Fraction::modulo_of, crate::specs::Fraction::remainder_of, crate::specs::Fixed::fitted))]
pub fn worked_roundings()
    ensures floor { floor_of (record { coefficient = negsuc 24; scale = 1 }) ≡ Ok (record { coefficient = negsuc 2; scale = 0 }) }
    ensures whole_part { whole_part_of (record { coefficient = negsuc 24; scale = 1 }) ≡ Ok (record { coefficient = negsuc 1; scale = 0 }) }
    ensures fraction_part { fraction_part_of (record { coefficient = negsuc 24; scale = 1 }) ≡ Ok (record { coefficient = negsuc 4; scale = 1 }) }
    ensures ceiling { ceiling_of (record { coefficient = negsuc 24; scale = 1 }) ≡ Ok (record { coefficient = negsuc 1; scale = 0 }) }
    ensures whole { whole_of (record { coefficient = negsuc 24; scale = 1 }) ≡ negsuc 1 }
    ensures rounded { rounded_to (record { coefficient = negsuc 24; scale = 1 }) (pos 0) ≡ Ok (record { coefficient = negsuc 1; scale = 0 }) }
    ensures hundreds { rounded_to (record { coefficient = pos 12355; scale = 1 }) (negsuc 1) ≡ Ok (record { coefficient = pos 1200; scale = 0 }) }
    ensures truncated { truncated_to (record { coefficient = negsuc 2788; scale = 3 }) (pos 2) ≡ Ok (record { coefficient = negsuc 277; scale = 2 }) }
    ensures fits { fitted (record { coefficient = pos 2345; scale = 3 }) (record { whole = 3; places = 2 }) ≡ Ok (record { coefficient = pos 235; scale = 2 }) }
    ensures fits_below { fitted (record { coefficient = negsuc 2344; scale = 3 }) (record { whole = 3; places = 2 }) ≡ Ok (record { coefficient = negsuc 234; scale = 2 }) }
    ensures too_wide { fitted (record { coefficient = pos 9999995; scale = 4 }) (record { whole = 3; places = 2 }) ≡ Err DecFault.Overflow }
    ensures modulo { modulo_of (record { coefficient = negsuc 6; scale = 0 }) (record { coefficient = pos 3; scale = 0 }) ≡ Ok (record { coefficient = pos 2; scale = 0 }) }
    ensures remainder { remainder_of (record { coefficient = negsuc 6; scale = 0 }) (record { coefficient = pos 3; scale = 0 }) ≡ Ok (record { coefficient = negsuc 0; scale = 0 }) }
{}
