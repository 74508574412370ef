ghost use Rattle.std.specs.Prelude.{◌≡◌, ℕ, ◌<◌, ◌≤◌, ◌*◌, ◌^◌, ℤ, pos, neg_ℤ, ◌*ℤ◌, min, unsigned_abs};
ghost use Rattle.bas_dec.specs.Number.{limit};

use super::Dec;
use crate::fault::DecFault;
use crate::types::FixType;
use crate::words::{half_up, raised, rounded, saturated, ten_to};

impl Dec {
    ghost use Rattle.std.specs.Prelude.{Ok};
    ghost use Rattle.bas_dec.specs.Arithmetic.{number_at};
    ghost use Rattle.bas_dec.specs.Fraction.{floor_of, whole_part_of, fraction_part_of, ceiling_of, rounded_to, truncated_to, whole_word};
    ghost use Rattle.bas_dec.specs.Fixed.{fitted, rounded_coefficient};

    /// `INT(X)`: the greatest whole number that is not above this one.
    #[tactic(auto, using(crate::proofs::Rounding::floor_is))]
    pub fn floor(self) -> Dec
        ensures { Ok result ≡ floor_of self }
    {
        Dec {
            coefficient: self.coefficient.div_euclid(ten_to(self.scale) as i128),
            scale: 0,
        }
    }

    /// `IP(X)`: the whole part, towards zero.
    #[tactic(auto, using(crate::proofs::Rounding::whole_part_is))]
    pub fn ip(self) -> Dec
        ensures { Ok result ≡ whole_part_of self }
    {
        Dec {
            coefficient: self.coefficient / ten_to(self.scale) as i128,
            scale: 0,
        }
    }

    /// `FP(X) = X - IP(X)`: the number without its whole part.
    #[tactic(auto, using(crate::proofs::Rounding::fraction_part_is, crate::proofs::Rounding::fraction_part_number))]
    pub fn fp(self) -> Dec
        ensures { Ok result ≡ fraction_part_of self }
    {
        Dec {
            coefficient: self.coefficient % ten_to(self.scale) as i128,
            scale: self.scale,
        }
    }

    /// `CEIL(X) = -INT(-X)`: the least whole number that is not below this one.
    #[tactic(auto, using(crate::proofs::Rounding::ceiling_is))]
    pub fn ceil(self) -> Dec
        ensures { Ok result ≡ ceiling_of self }
    {
        Dec {
            coefficient: -(-self.coefficient).div_euclid(ten_to(self.scale) as i128),
            scale: 0,
        }
    }

    /// `INT(X + .5)`, or the nearer end of `i64`.
    pub fn whole(self) -> i64
        ensures { result ≡ whole_word self }
    {
        saturated(half_up(self.coefficient, ten_to(self.scale)))
    }

    /// `ROUND(X, N) = INT(X * 10^N + .5) / 10^N`. `Overflow` where no number has that value.
    #[tactic(auto, using(crate::proofs::Rounding::below_from_size))]
    pub fn round_to(self, n: i64) -> Result<Dec, DecFault>
        ensures { result ≡ rounded_to self n }
    {
        if n < 0 {
            self.round_zeros(n.unsigned_abs())
        } else {
            self.round_places(n.unsigned_abs())
        }
    }

    #[tactic(auto, using(crate::proofs::Rounding::rounded_kept, crate::proofs::Rounding::rounded_fewer))]
    fn round_places(self, n: u64) -> Result<Dec, DecFault>
        ensures { result ≡ rounded_to self (pos n) }
    {
        if n >= u64::from(self.scale) {
            return Ok(self);
        }
        let places = n as u8;
        let rounded = half_up(self.coefficient, ten_to(self.scale - places));
        Dec::number(rounded, places)
    }

    #[tactic(auto, using(crate::proofs::Rounding::rounded_away, crate::proofs::Rounding::rounded_before))]
    fn round_zeros(self, n: u64) -> Result<Dec, DecFault>
        requires { 0 < n }
        ensures { result ≡ rounded_to self (neg_ℤ (pos n)) }
    {
        if n > u64::from(38 - self.scale) {
            return Ok(Dec::ZERO);
        }
        let zeros = n as u8;
        let rounded = half_up(self.coefficient, ten_to(self.scale + zeros));
        Dec::whole_number(rounded, zeros)
    }

    /// `coefficient * 10^zeros`.
    #[tactic(auto, using(crate::proofs::Rounding::whole_number_is))]
    fn whole_number(coefficient: i128, zeros: u8) -> Result<Dec, DecFault>
        ensures { result ≡ number_at (coefficient *ℤ pos (10 ^ zeros)) 0 }
    {
        Dec::number(raised(coefficient, zeros)?, 0)
    }

    /// `TRUNCATE(X, N) = IP(X * 10^N) / 10^N`. `Overflow` where no number has that value.
    #[tactic(auto, using(crate::proofs::Rounding::below_from_size))]
    pub fn truncate_to(self, n: i64) -> Result<Dec, DecFault>
        ensures { result ≡ truncated_to self n }
    {
        if n < 0 {
            self.truncate_zeros(n.unsigned_abs())
        } else {
            self.truncate_places(n.unsigned_abs())
        }
    }

    #[tactic(auto, using(crate::proofs::Rounding::truncated_kept, crate::proofs::Rounding::truncated_fewer))]
    fn truncate_places(self, n: u64) -> Result<Dec, DecFault>
        ensures { result ≡ truncated_to self (pos n) }
    {
        if n >= u64::from(self.scale) {
            return Ok(self);
        }
        let places = n as u8;
        let power = ten_to(self.scale - places) as i128;
        Dec::number(self.coefficient / power, places)
    }

    #[tactic(auto, using(crate::proofs::Rounding::truncated_away, crate::proofs::Rounding::truncated_before))]
    fn truncate_zeros(self, n: u64) -> Result<Dec, DecFault>
        requires { 0 < n }
        ensures { result ≡ truncated_to self (neg_ℤ (pos n)) }
    {
        if n > u64::from(38 - self.scale) {
            return Ok(Dec::ZERO);
        }
        let zeros = n as u8;
        let power = ten_to(self.scale + zeros) as i128;
        Dec::whole_number(self.coefficient / power, zeros)
    }

    /// The number rounded to the places of the type. `Overflow` where its whole part then has more
    /// digits than the type.
    #[tactic(auto, unfolding(crate::specs::Fixed::fitted))]
    pub fn fit(self, t: FixType) -> Result<Dec, DecFault>
        ensures { result ≡ fitted self t }
    {
        let (whole, places) = t.digits();
        let (coefficient, scale) = self.rounded_at(places);
        if coefficient.unsigned_abs() / ten_to(scale) >= ten_to(whole) {
            return Err(DecFault::Overflow);
        }
        Dec::number(coefficient, scale)
    }

    /// The coefficient and the places of the number rounded to at most `places`.
    fn rounded_at(self, places: u8) -> (i128, u8)
        ensures coefficient { result.0 ≡ rounded_coefficient self places }
        ensures places { result.1 ≡ min self.scale places }
        ensures size { unsigned_abs result.0 < limit }
        ensures bound { result.1 ≤ 30 }
    {
        if self.scale <= places {
            (self.coefficient, self.scale)
        } else {
            let power = ten_to(self.scale - places);
            (rounded(self.coefficient, power), places)
        }
    }
}
