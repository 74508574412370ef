//! References to variables and elements.

ghost use Rattle.std.specs.Prelude.{◌≡◌};

use std::marker::Model;

/// A reference to a variable, to an element of an array, or to an array as a whole. Contracts see the
/// place: the number of the cell, and the number of the value in it, which is 0 for a scalar and for
/// an array as a whole.
#[derive(Clone, Copy, Debug)]
pub struct Ref {
    cell: u32,
    at: u32,
}

impl Model for Ref {
    ghost use Rattle.bas_cell.specs.Live.{Place};

    ghost Value = { Place };

    ghost view = { λ r. record { cell = r.cell; at = r.at } };

    ghost inverse = { λ p. record { cell = p.cell; at = p.at } };
}

impl Ref {
    pub(crate) fn of(cell: u32, at: u32) -> Ref
        ensures { result ≡ record { cell = cell; at = at } }
    {
        Ref { cell, at }
    }

    /// The number of the cell that it refers to, or in which the element is.
    pub fn cell(self) -> u32
        ensures { result ≡ self.cell }
    {
        self.cell
    }

    /// The number of the value in the cell, from 0.
    pub fn at(self) -> u32
        ensures { result ≡ self.at }
    {
        self.at
    }
}
