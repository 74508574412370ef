mod order;
mod power;
mod products;
mod quotients;
mod rounding;
mod sums;

ghost use Rattle.std.specs.Prelude.{◌≡◌, ℕ, ◌%◌, ◌<◌, ◌≤◌, unsigned_abs, IfOk};

use crate::PLACES;
use crate::fault::DecFault;
use crate::strip::strip;
use crate::words::{LIMIT, raised, signed};
use std::marker::Model;

/// A decimal number, in lowest form: its coefficient has at most 38 digits and its fraction at most
/// `PLACES`, with no zero at the end.
#[derive(Clone, Copy, Debug, PartialEq, Eq)]
pub struct Dec {
    coefficient: i128,
    scale: u8,
}

impl Model for Dec {
    ghost use Rattle.bas_dec.specs.Number.{Number, IsNumber};

    ghost Value = { Number };

    ghost view = { λ d. record { coefficient = d.coefficient; scale = d.scale } };

    ghost invariant = { λ d. IsNumber (record { coefficient = d.coefficient; scale = d.scale }) };

    ghost inverse = { λ x. record { coefficient = x.coefficient; scale = x.scale } };
}

impl Dec {
    ghost use Rattle.bas_dec.specs.Number.{IsNumber, limit, low, number_of, signed as signed_of};
    ghost use Rattle.bas_dec.specs.Arithmetic.{number_at, aligned as aligned_of};

    const ZERO: Dec = Dec {
        coefficient: 0,
        scale: 0,
    };

    const ONE: Dec = Dec {
        coefficient: 1,
        scale: 0,
    };

    /// The number `c / 10^s`, or `None` where no number has that value.
    pub fn of_parts(c: i128, s: u8) -> Option<Dec>
        ensures { result ≡ low c s }
    {
        Dec::of_size(c < 0, c.unsigned_abs(), s)
    }

    /// The number of that sign whose size is `size / 10^scale`, or `None` where there is none.
    #[tactic(auto, using(crate::proofs::Lowest::low_stripped))]
    pub(crate) fn of_size(negative: bool, size: u128, scale: u8) -> Option<Dec>
        ensures { result ≡ low (signed_of negative size) scale }
    {
        let (size, scale) = strip(size, scale);
        Dec::of_stripped(negative, size, scale)
    }

    /// The same for a fraction that has no zero at its end.
    pub(crate) fn of_stripped(negative: bool, size: u128, scale: u8) -> Option<Dec>
        requires { 0 < scale → 0 < size % 10 }
        ensures { result ≡ number_of (signed_of negative size) scale }
    {
        if size >= LIMIT || scale > PLACES {
            return None;
        }
        let coefficient = signed(negative, size);
        Some(Dec { coefficient, scale })
    }

    /// The coefficient and the scale, which are in lowest form.
    pub fn parts(self) -> (i128, u8)
        ensures coefficient { result.0 ≡ self.coefficient }
        ensures scale { result.1 ≡ self.scale }
        ensures number { IsNumber self }
    {
        (self.coefficient, self.scale)
    }

    /// The number `coefficient / 10^scale`, or `Overflow` where there is none.
    fn number(coefficient: i128, scale: u8) -> Result<Dec, DecFault>
        ensures { result ≡ number_at coefficient scale }
    {
        Dec::of_parts(coefficient, scale).ok_or(DecFault::Overflow)
    }

    /// The coefficient at `scale` places.
    fn aligned(self, scale: u8) -> Result<i128, DecFault>
        requires { self.scale ≤ scale }
        ensures value { result ≡ aligned_of self scale }
        ensures small { IfOk result (λ a. unsigned_abs a < limit) }
        ensures nonzero { IfOk result (λ a. 0 < unsigned_abs self.coefficient → 0 < unsigned_abs a) }
    {
        raised(self.coefficient, scale - self.scale)
    }
}
