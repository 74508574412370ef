// Whole numbers of up to 60 digits.
ghost use Rattle.std.specs.Prelude.{◌≡◌, ℕ, ◌+◌, ◌-◌, ◌*◌, ◌/◌, ◌%◌, ◌^◌, ◌<◌, ◌≤◌, List, length, MatchBool};
ghost use Rattle.std.specs.Option.{SomeIff};
ghost use Rattle.bas_dec.specs.NumeralForm.{AreDigits};
ghost use Rattle.bas_dec.specs.Numeral.{written_behind};

use std::marker::Model;

/// 10^30, the base of the two words.
const BASE: u128 = 1_000_000_000_000_000_000_000_000_000_000;

/// The number `high * 10^30 + low`, of at most 60 digits, or 10^60.
#[derive(Drop)]
pub struct Wide {
    high: u128,
    low: u128,
}

impl Model for Wide {
    ghost Value = { ℕ };

    ghost view = { λ w. w.high * 10 ^ 30 + w.low };

    ghost invariant = { λ w. (w.high ≤ 10 ^ 30) × (w.low < 10 ^ 30) };
}

impl Wide {
    /// The number 0.
    pub fn zero() -> Self
        ensures { result ≡ 0 }
    {
        Wide { high: 0, low: 0 }
    }

    /// Puts a digit behind the others.
    pub fn push(&mut self, digit: u8)
        requires room { self.old < 10 ^ 59 }
        requires digit { digit < 10 }
        ensures { self.new ≡ self.old * 10 + digit }
    {
        self.high = self.high * 10 + self.low / (BASE / 10);
        self.low = self.low % (BASE / 10) * 10 + u128::from(digit);
    }

    /// The last digit.
    pub fn last(&self) -> u8
        ensures { result ≡ self.now % 10 }
    {
        (self.low % 10) as u8
    }

    /// Takes the last digit off.
    pub fn pop(&mut self)
        ensures { self.new ≡ self.old / 10 }
    {
        self.low = self.high % 10 * (BASE / 10) + self.low / 10;
        self.high /= 10;
    }

    /// Adds 1.
    pub fn increment(&mut self)
        requires { self.old < 10 ^ 60 }
        ensures { self.new ≡ self.old + 1 }
    {
        if self.low == BASE - 1 {
            self.low = 0;
            self.high += 1;
        } else {
            self.low += 1;
        }
    }

    /// The number, if it has at most 38 digits.
    pub fn small(&self) -> Option<u128>
        ensures { SomeIff result (self.now < 10 ^ 38) (self.now) }
    {
        if self.high < 100_000_000 {
            Some(self.high * BASE + self.low)
        } else {
            None
        }
    }

    /// Puts digits behind those that are there, of which there are at most `count`.
    #[tactic(auto, using(crate::proofs::DigitLemmas::digit_at))]
    pub fn push_all(&mut self, digits: &[u8], count: usize)
        requires below { self.old < 10 ^ count }
        requires room { count + length digits.now ≤ 60 }
        requires digits { AreDigits digits.now }
        ensures value { self.new ≡ written_behind self.old digits.now }
        ensures below { self.new < 10 ^ (count + length digits.now) }
    {
        for digit in digits {
            self.push(*digit - b'0');
        }
    }

    /// Takes `count` digits off, rounding to nearest with ties up.
    #[tactic(auto, using(crate::proofs::WideLemmas::round_all))]
    pub fn round(&mut self, count: usize)
        requires { self.old < 10 ^ 60 }
        ensures { self.new ≡ (2 * self.old + 10 ^ count) / (2 * 10 ^ count) }
    {
        if count == 0 {
            return;
        }
        // Less than a half is left of 60 digits.
        if count > 60 {
            *self = Wide::zero();
            return;
        }
        for _ in 1..count {
            self.pop();
        }
        let up = self.last() >= 5;
        self.pop();
        if up {
            self.increment();
        }
    }

    /// Puts `count` zeros behind the digits, or answers false where the number reaches 10^38 by that.
    pub fn raise(&mut self, count: usize) -> bool
        requires { self.old < 10 ^ 60 }
        ensures { MatchBool result ((self.new ≡ self.old * 10 ^ count) × (self.new < 10 ^ 60)) ((0 < count) × (10 ^ 38 ≤ self.old * 10 ^ count)) }
    {
        if self.high == 0 && self.low == 0 {
            return true;
        }
        for _ in 0..count {
            if self.small().is_none() {
                return false;
            }
            self.push(0);
        }
        true
    }
}
