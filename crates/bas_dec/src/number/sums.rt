ghost use Rattle.std.specs.Prelude.{◌≡◌};

use super::Dec;
use crate::fault::DecFault;
use crate::words::{difference, sum};

impl Dec {
    ghost use Rattle.bas_dec.specs.Arithmetic.{sum_of, difference_of, negated, size_of, sign_of};

    /// The sum. `Overflow` where a coefficient at the larger scale, or their sum, reaches 10^38.
    #[tactic(auto, unfolding(crate::specs::Arithmetic::sum_of))]
    pub fn add(self, y: Dec) -> Result<Dec, DecFault>
        ensures { result ≡ sum_of self y }
    {
        let scale = self.scale.max(y.scale);
        Dec::number(sum(self.aligned(scale)?, y.aligned(scale)?)?, scale)
    }

    /// The difference. `Overflow` where a coefficient at the larger scale, or their difference,
    /// reaches 10^38.
    #[tactic(auto, unfolding(crate::specs::Arithmetic::difference_of))]
    pub fn sub(self, y: Dec) -> Result<Dec, DecFault>
        ensures { result ≡ difference_of self y }
    {
        let scale = self.scale.max(y.scale);
        Dec::number(difference(self.aligned(scale)?, y.aligned(scale)?)?, scale)
    }

    /// The number as far below zero as this one is above it.
    pub fn negate(self) -> Dec
        ensures { result ≡ negated self }
    {
        Dec {
            coefficient: -self.coefficient,
            scale: self.scale,
        }
    }

    /// The number without its sign.
    pub fn abs(self) -> Dec
        ensures { result ≡ size_of self }
    {
        Dec {
            coefficient: self.coefficient.abs(),
            scale: self.scale,
        }
    }

    /// 1, 0 or -1, as the number is above zero, zero or below it.
    pub fn sgn(self) -> Dec
        ensures { result ≡ sign_of self }
    {
        Dec {
            coefficient: self.coefficient.signum(),
            scale: 0,
        }
    }
}
