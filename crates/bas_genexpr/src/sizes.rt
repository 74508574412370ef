//! The sizes that one walk listed, read by the next one in the same order.

ghost use Rattle.std.specs.Prelude.{◌≡◌};
ghost use Rattle.bas_genexpr.specs.Sizes.{IsNext};

use std::marker::Model;

/// Sizes that are read from the first to the last: contracts see those that are not read yet.
#[derive(Debug, Drop)]
pub struct Sizes {
    listed: Vec<u32>,
    read: usize,
}

impl Model for Sizes {
    ghost use Rattle.std.specs.Prelude.{ℕ, List, drop};

    ghost Value = { List ℕ };

    ghost view = { λ sizes. drop sizes.read sizes.listed.items };
}

impl Sizes {
    /// None of these is read yet.
    pub fn of(listed: Vec<u32>) -> Sizes
        ensures { result ≡ listed.items }
    {
        Sizes { listed, read: 0 }
    }

    /// The next size, or 0 if there is none.
    pub fn next(&mut self) -> u32
        ensures { IsNext self.old result self.new }
    {
        match self.listed.get(self.read) {
            Some(size) => {
                self.read += 1;
                *size
            }
            None => 0,
        }
    }
}
