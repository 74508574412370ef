ghost use Rattle.std.specs.Prelude.{◌≡◌, ℕ, ◌*◌, ◌/◌, ◌^◌, ◌<◌, ◌≤◌, nat_le, if◌then◌else◌, ℤ, pos, unsigned_abs, int_lt, true, false};

use super::Dec;
use crate::fault::DecFault;
use crate::words::{raised, ten_to};
use crate::{LARGEST_EXPONENT, SHORT};

impl Dec {
    ghost use Rattle.std.specs.Prelude.{Ok, Err};
    ghost use Rattle.bas_dec.specs.Power.{power_of, natural_power as natural_power_of, left_product as left_product_of, root_of, root_limit};
    ghost use Rattle.bas_dec.specs.declared.TheConstants.{SHORT};
    ghost use Rattle.bas_dec.specs.declared.fault.DecFault.TheVariants.{Overflow};

    /// The number to the power of `y`: the product from the left, and below zero the quotient of 1
    /// by it. `NotWhole` for an exponent with a fraction, then `Overflow` for one above 4096 in size
    /// unless the number is 0, 1 or -1, then the faults of the products and of the quotient.
    #[tactic(auto, unfolding(crate::specs::Power::power_of))]
    pub fn power(self, y: Dec) -> Result<Dec, DecFault>
        ensures { result ≡ power_of self y }
    {
        if y.scale > 0 {
            return Err(DecFault::NotWhole);
        }
        let power = self.natural_power(y.coefficient.unsigned_abs())?;
        if y.coefficient < 0 {
            Dec::ONE.div(power)
        } else {
            Ok(power)
        }
    }

    /// The power, where its exponent is not too large.
    fn natural_power(self, n: u128) -> Result<Dec, DecFault>
        ensures { result ≡ natural_power_of self n }
    {
        if n <= u128::from(LARGEST_EXPONENT) {
            self.left_product(n as u16)
        } else if self.scale == 0 && self.coefficient.unsigned_abs() <= 1 {
            self.left_product((n % 2 + 2) as u16)
        } else {
            Err(DecFault::Overflow)
        }
    }

    /// The product of `n` numbers like this one from the left.
    #[tactic(auto, using(crate::proofs::Products::one_product_more, crate::proofs::Products::no_product))]
    fn left_product(self, n: u16) -> Result<Dec, DecFault>
        ensures { result ≡ left_product_of self n }
    {
        let mut power = Dec::ONE;
        for _ in 0..n {
            power = power.mul(self)?;
        }
        Ok(power)
    }

    /// The greatest multiple of 10^-9 that is not above the root. `BadRoot` below zero, `Overflow`
    /// from 10^20 on.
    #[tactic(auto, unfolding(crate::specs::Power::root_of))]
    pub fn sqr(self) -> Result<Dec, DecFault>
        ensures { result ≡ root_of self }
    {
        if self.coefficient < 0 {
            return Err(DecFault::BadRoot);
        }
        let square = self.square()?;
        Dec::number(square.isqrt() as i128, SHORT / 2)
    }

    /// The number in units of 10^-18, where it is below 10^20.
    #[tactic(auto, using(crate::proofs::Root::square_refused, crate::proofs::Root::square_shorter))]
    fn square(self) -> Result<u128, DecFault>
        requires { int_lt self.coefficient (pos 0) ≡ false }
        ensures { result ≡ (if nat_le (root_limit * 10 ^ self.scale) (unsigned_abs self.coefficient) then Err Overflow else Ok (unsigned_abs self.coefficient * 10 ^ SHORT / 10 ^ self.scale)) }
    {
        if self.scale <= SHORT {
            let square = raised(self.coefficient, SHORT - self.scale)?;
            Ok(square.unsigned_abs())
        } else {
            Ok(self.coefficient.unsigned_abs() / ten_to(self.scale - SHORT))
        }
    }
}
