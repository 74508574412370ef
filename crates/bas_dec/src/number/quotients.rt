ghost use Rattle.std.specs.Prelude.{◌≡◌, ℕ, ◌<◌, unsigned_abs};

use super::Dec;
use crate::fault::DecFault;
use crate::words::{kept_places, modulo, raised, remainder, rounded_quotient};

impl Dec {
    ghost use Rattle.bas_dec.specs.Arithmetic.{quotient_of, divided as divided_of};
    ghost use Rattle.bas_dec.specs.Fraction.{modulo_of, remainder_of, rest_by, floor, cut};

    /// The quotient, rounded to 18 places or as many as the longer operand has. `ZeroDivide` by 0,
    /// else `Overflow` where the dividend, scaled for these places, reaches 10^38.
    #[tactic(auto, unfolding(crate::specs::Arithmetic::quotient_of))]
    pub fn div(self, y: Dec) -> Result<Dec, DecFault>
        ensures { result ≡ quotient_of self y }
    {
        if y.coefficient == 0 {
            return Err(DecFault::ZeroDivide);
        }
        self.divided(y)
    }

    /// The quotient by a number other than 0.
    fn divided(self, y: Dec) -> Result<Dec, DecFault>
        requires { 0 < unsigned_abs y.coefficient }
        ensures { result ≡ divided_of self y }
    {
        let places = kept_places(self.scale, y.scale);
        let dividend = raised(self.coefficient, places + y.scale - self.scale)?;
        Dec::number(rounded_quotient(dividend, y.coefficient), places)
    }

    /// `X - Y * INT(X / Y)`, which has the sign of `y`. `ZeroDivide` by 0, else `Overflow` where a
    /// coefficient at the larger scale reaches 10^38.
    #[tactic(auto, unfolding(crate::specs::Fraction::modulo_of))]
    pub fn modulo(self, y: Dec) -> Result<Dec, DecFault>
        ensures { result ≡ modulo_of self y }
    {
        if y.coefficient == 0 {
            return Err(DecFault::ZeroDivide);
        }
        self.modulo_by(y)
    }

    /// The same by a number other than 0.
    fn modulo_by(self, y: Dec) -> Result<Dec, DecFault>
        requires { 0 < unsigned_abs y.coefficient }
        ensures { result ≡ rest_by floor self y }
    {
        let scale = self.scale.max(y.scale);
        let dividend = self.aligned(scale)?;
        let divisor = y.aligned(scale)?;
        Dec::number(modulo(dividend, divisor), scale)
    }

    /// `X - Y * IP(X / Y)`, which has the sign of this number. Faults as those of `modulo`.
    #[tactic(auto, unfolding(crate::specs::Fraction::remainder_of))]
    pub fn remainder(self, y: Dec) -> Result<Dec, DecFault>
        ensures { result ≡ remainder_of self y }
    {
        if y.coefficient == 0 {
            return Err(DecFault::ZeroDivide);
        }
        self.remainder_by(y)
    }

    /// The same by a number other than 0.
    fn remainder_by(self, y: Dec) -> Result<Dec, DecFault>
        requires { 0 < unsigned_abs y.coefficient }
        ensures { result ≡ rest_by cut self y }
    {
        let scale = self.scale.max(y.scale);
        let dividend = self.aligned(scale)?;
        let divisor = y.aligned(scale)?;
        Dec::number(remainder(dividend, divisor), scale)
    }
}
