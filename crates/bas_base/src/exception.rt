ghost use Rattle.std.specs.Prelude.{ℕ, ◌≤◌};

use crate::line::Line;
use crate::name::Name;
use std::marker::Model;

/// The number of an exception: 1 to 199,999. Those from 100,000 on left an external procedure.
#[derive(Clone, Copy, Debug)]
pub struct Ex(pub u32);

impl Model for Ex {
    ghost Value = { ℕ };

    ghost view = { λ ex. ex.0 };

    ghost invariant = { λ ex. (1 ≤ ex.0) × (ex.0 ≤ 199999) };

    ghost inverse = { λ n. record { 0 = n } };
}

/// An exception with the line and the unit in which it arose.
#[derive(Clone, Copy, Debug)]
pub struct ExAt {
    pub ex: Ex,
    pub line: Line,
    pub unit: Name,
}
