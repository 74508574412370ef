ghost use Rattle.std.specs.Prelude.{◌≡◌, ℕ, ◌≤◌};

use super::Dec;
use std::cmp::Ordering;

impl Dec {
    ghost use Rattle.bas_dec.specs.Arithmetic.{order_of};

    /// Whether this number is below the other, equal to it or above it.
    #[tactic(auto, using(crate::proofs::Order::order_turned))]
    pub fn compare(self, y: Dec) -> Ordering
        ensures { result ≡ order_of self y }
    {
        if self.scale <= y.scale {
            self.compare_aligned(y)
        } else {
            y.compare_aligned(self).reverse()
        }
    }

    /// The same, for the one with fewer places. Where its coefficient at the other's scale is too
    /// large, it is so far from zero that its own sign decides.
    fn compare_aligned(self, y: Dec) -> Ordering
        requires { self.scale ≤ y.scale }
        ensures { result ≡ order_of self y }
    {
        match self.aligned(y.scale) {
            Ok(coefficient) => coefficient.cmp(&y.coefficient),
            Err(_) => self.coefficient.cmp(&0),
        }
    }
}
