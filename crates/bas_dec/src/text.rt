// The text of a printed number, which is made from its end.
mod laws;

ghost use Rattle.std.specs.Prelude.{◌≡◌, ℕ, ◌+◌, ◌-◌, ◌*◌, ◌/◌, ◌%◌, ◌^◌, ◌<◌, ◌≤◌, ℤ, List, [], ◌∷◌, ◌++◌, length, drop};
ghost use Rattle.std.specs.Fmt.{decimal};
ghost use Rattle.bas_dec.specs.Text.{last_digits, whole_text, fraction_text, size_text, sign_byte};

use crate::number::Dec;
pub use laws::{printed_number_reads_back, worked_texts};
use std::marker::Model;

/// How many bytes a text may have.
const ROOM: usize = 64;

/// The bytes from `start` on.
#[derive(Drop)]
struct Text {
    bytes: [u8; ROOM],
    start: usize,
}

impl Model for Text {
    ghost Value = { List ℕ };

    ghost view = { λ t. drop t.start t.bytes };

    ghost invariant = { λ t. t.start ≤ 64 };
}

impl Text {
    fn new() -> Self
        ensures { result ≡ [] }
    {
        Text {
            bytes: [0; ROOM],
            start: ROOM,
        }
    }

    /// Puts a byte in front.
    fn put(&mut self, byte: u8)
        requires { length self.old < 64 }
        ensures { self.new ≡ byte ∷ self.old }
    {
        self.start -= 1;
        self.bytes[self.start] = byte;
    }

    /// Puts the last `count` digits of `n` in front, and gives the number that the others write.
    fn put_digits(&mut self, mut n: u128, count: u8) -> u128
        requires { length self.old + count ≤ 64 }
        ensures text { self.new ≡ last_digits n count ++ self.old }
        ensures rest { result ≡ n / 10 ^ count }
    {
        for _ in 0..count {
            self.put(b'0' + (n % 10) as u8);
            n /= 10;
        }
        n
    }

    /// Puts all digits of `n` in front.
    fn put_number(&mut self, mut n: u128)
        requires room { length self.old + length (decimal n) ≤ 64 }
        requires few { n < 10 ^ 38 }
        ensures { self.new ≡ decimal n ++ self.old }
    {
        while n >= 10 {
            self.put(b'0' + (n % 10) as u8);
            n /= 10;
        }
        self.put(b'0' + n as u8);
    }

    /// Puts the point and `places` digits of `size` in front, and gives the whole part.
    fn put_fraction(&mut self, size: u128, places: u8) -> u128
        requires { length self.old + length (fraction_text size places) ≤ 64 }
        ensures text { self.new ≡ fraction_text size places ++ self.old }
        ensures rest { result ≡ size / 10 ^ places }
    {
        if places == 0 {
            return size;
        }
        let whole = self.put_digits(size, places);
        self.put(b'.');
        whole
    }

    /// Puts the whole part of a number with that many places in front.
    fn put_whole(&mut self, whole: u128, places: u8)
        requires room { length self.old + length (whole_text whole places) ≤ 64 }
        requires few { whole < 10 ^ 38 }
        ensures { self.new ≡ whole_text whole places ++ self.old }
    {
        if whole > 0 || places == 0 {
            self.put_number(whole);
        }
    }

    /// The digits and the point of `size / 10^places`, and a space behind.
    fn of_size(size: u128, places: u8) -> Self
        requires few { size < 10 ^ 38 }
        requires places { places ≤ 38 }
        ensures text { result ≡ size_text size places ++ 32 ∷ [] }
        ensures room { length result < 64 }
    {
        let mut text = Text::new();
        text.put(b' ');
        let whole = text.put_fraction(size, places);
        text.put_whole(whole, places);
        text
    }

    /// Copies the bytes to the front of `out`, and gives their number.
    fn copy_to(&self, out: &mut [u8; ROOM]) -> usize
        ensures length { result ≡ length self.now }
        ensures bound { result ≤ 64 }
        ensures text { out.new ≡ self.now ++ drop (length self.now) out.old }
    {
        let count = ROOM - self.start;
        out[..count].copy_from_slice(&self.bytes[self.start..]);
        count
    }
}

/// A minus below zero, or a space.
fn sign(coefficient: i128) -> u8
    ensures { result ≡ sign_byte coefficient }
{
    if coefficient < 0 { b'-' } else { b' ' }
}

impl Dec {
    ghost use Rattle.bas_dec.specs.Text.{text_of};

    /// Writes the number's text to the front of `out`, and gives its length. The other bytes stay.
    ///
    /// The text is a space or a minus, the digits, and a space. No zero stands before the point of
    /// a number below 1, and there is never an exponent.
    pub fn print_into(self, out: &mut [u8; 64]) -> usize
        ensures length { result ≡ length (text_of self) }
        ensures bound { result ≤ 64 }
        ensures text { out.new ≡ text_of self ++ drop result out.old }
    {
        let (coefficient, scale) = self.parts();
        let mut text = Text::of_size(coefficient.unsigned_abs(), scale);
        text.put(sign(coefficient));
        text.copy_to(out)
    }
}
