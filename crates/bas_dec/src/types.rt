ghost use Rattle.std.specs.Prelude.{◌≡◌};

use crate::PLACES;
use std::marker::Model;

/// The type `*m.n`: `m` digits before the point and `n` behind it, from 1 to 38 in all and at most
/// `PLACES` behind.
#[derive(Clone, Copy, Debug, PartialEq, Eq)]
pub struct FixType {
    whole: u8,
    places: u8,
}

impl Model for FixType {
    ghost use Rattle.bas_dec.specs.Fixed.{Fixed, IsFixed};

    ghost Value = { Fixed };

    ghost view = { λ t. record { whole = t.whole; places = t.places } };

    ghost invariant = { λ t. IsFixed (record { whole = t.whole; places = t.places }) };

    ghost inverse = { λ t. record { whole = t.whole; places = t.places } };
}

impl FixType {
    ghost use Rattle.std.specs.Option.{SomeIff};
    ghost use Rattle.bas_dec.specs.Fixed.{IsFixed};

    /// The digits before the point and behind it.
    pub(crate) fn digits(self) -> (u8, u8)
        ensures whole { result.0 ≡ self.whole }
        ensures places { result.1 ≡ self.places }
        ensures fixed { IsFixed self }
    {
        (self.whole, self.places)
    }

    /// The type with `m` digits before the point and `n` behind it, where there is such a type.
    pub fn of(m: u8, n: u8) -> Option<FixType>
        ensures { SomeIff result (IsFixed (record { whole = m; places = n })) (record { whole = m; places = n }) }
    {
        if n <= PLACES && m <= 38 && (1..=38).contains(&(m + n)) {
            Some(FixType {
                whole: m,
                places: n,
            })
        } else {
            None
        }
    }
}

/// The type of a numeric variable.
#[derive(Clone, Copy, Debug, PartialEq, Eq)]
pub enum NumType {
    /// Holds every number.
    General,
    /// Holds the numbers of a type `*m.n`.
    Fix(FixType),
}
