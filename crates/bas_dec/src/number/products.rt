ghost use Rattle.std.specs.Prelude.{◌≡◌, ℕ, ◌+◌, ◌<◌, ◌≤◌, unsigned_abs};
ghost use Rattle.bas_dec.specs.Number.{limit};

use super::Dec;
use crate::fault::DecFault;
use crate::words::{kept_places, product, rounded, ten_to};

impl Dec {
    ghost use Rattle.bas_dec.specs.Arithmetic.{product_of, rounded_within as rounded_within_of};

    /// The product, rounded to 18 places or as many as the longer operand has. `Overflow` where the
    /// product of the coefficients reaches 10^38.
    #[tactic(auto, unfolding(crate::specs::Arithmetic::product_of))]
    pub fn mul(self, y: Dec) -> Result<Dec, DecFault>
        ensures { result ≡ product_of self y }
    {
        let exact = product(self.coefficient, y.coefficient)?;
        let places = kept_places(self.scale, y.scale);
        Dec::rounded_within(exact, self.scale + y.scale, places)
    }

    /// `coefficient / 10^scale`, rounded to `places` where it has more.
    fn rounded_within(coefficient: i128, scale: u8, places: u8) -> Result<Dec, DecFault>
        requires size { unsigned_abs coefficient < limit }
        requires few { scale ≤ places + 38 }
        ensures { result ≡ rounded_within_of coefficient scale places }
    {
        if scale <= places {
            Dec::number(coefficient, scale)
        } else {
            Dec::number(rounded(coefficient, ten_to(scale - places)), places)
        }
    }
}
