ghost use Rattle.std.specs.Prelude.{◌≡◌, ℕ, ◌≤◌};

use std::marker::Model;

/// The number of a line of source text: 1 to 99999.
#[derive(Clone, Copy, Debug)]
pub struct Line {
    number: u32,
}

impl Model for Line {
    ghost Value = { ℕ };

    ghost view = { λ line. line.number };

    ghost invariant = { λ line. (1 ≤ line.number) × (line.number ≤ 99999) };

    ghost inverse = { λ n. record { number = n } };
}

impl Line {
    ghost use Rattle.std.specs.Option.{SomeIff};

    /// The line of this number, or `None` outside 1 to 99999.
    pub fn of(n: u32) -> Option<Line>
        ensures { SomeIff result ((1 ≤ n) × (n ≤ 99999)) n }
    {
        if n >= 1 && n <= 99999 {
            Some(Line { number: n })
        } else {
            None
        }
    }

    /// The number, 1 to 99999.
    pub fn number(self) -> u32
        ensures same { result ≡ self }
        ensures range { (1 ≤ result) × (result ≤ 99999) }
    {
        self.number
    }
}
