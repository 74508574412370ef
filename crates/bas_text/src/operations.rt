//! What the language does with strings: joining, repeating, parts, places, capitals, trims and the order.

ghost use Rattle.std.specs.Prelude.{◌≡◌, [], ◌*◌, ◌<◌, ◌≤◌, ◌↔◌, length, IfOk, IsErrOf, IsOk};
ghost use Rattle.bas_text.specs.Strings.{natural, join, repeat, part, position, upper, lower, compare};
ghost use Rattle.bas_text.specs.Trim.{trim_left, trim_right};

use crate::byte_string::{MAX_STRING_LEN, StrVal, TextFault};
use memchr::memmem;
use std::alloc::{AllocError, Global};
use std::cmp::Ordering;

impl StrVal {
    /// This string with another one after it, or `TooLong` exactly where that has more than 65,535 bytes.
    /// This is the operator `&` of ECMA-116.
    pub fn join(&self, alloc: Global, b: &StrVal) -> Result<StrVal, TextFault>
        ensures same { IfOk result (λ string. string ≡ join self.now b.now) }
        ensures too_long { IsErrOf result TextFault.TooLong ↔ (MAX_STRING_LEN < length (join self.now b.now)) }
        ensures empty { join self.now b.now ≡ [] → IsOk result }
    {
        let (front, back) = (self.bytes(), b.bytes());
        let len = front.len() + back.len();
        if len > MAX_STRING_LEN {
            return Err(TextFault::TooLong);
        }
        let mut joined = Vec::with_capacity(alloc, len)?;
        joined.extend_from_slice(front)?;
        joined.extend_from_slice(back)?;
        Ok(StrVal::holding(joined))
    }

    /// This string `n` times, or `TooLong` exactly where that has more than 65,535 bytes. The empty string
    /// is empty any number of times. This is `REPEAT$` of ECMA-116.
    pub fn repeat(&self, alloc: Global, n: u64) -> Result<StrVal, TextFault>
        ensures same { IfOk result (λ string. string ≡ repeat n self.now) }
        ensures too_long { IsErrOf result TextFault.TooLong ↔ (MAX_STRING_LEN < length (repeat n self.now)) }
        ensures empty { repeat n self.now ≡ [] → IsOk result }
    {
        let bytes = self.bytes();
        if bytes.is_empty() {
            return Ok(StrVal::holding(Vec::new(alloc)));
        }
        if n > (MAX_STRING_LEN / bytes.len()) as u64 {
            return Err(TextFault::TooLong);
        }
        Ok(StrVal::holding(repeated(alloc, bytes, n as usize)?))
    }

    /// The bytes from place `m` to place `n`, counted from 1: an `m` below 1 counts as 1, an `n` past the
    /// length as the length, and where `m` is above `n` after that, the empty string. This is the
    /// substring `A$(m:n)` of ECMA-116.
    pub fn part(&self, alloc: Global, m: i64, n: i64) -> Result<StrVal, AllocError>
        ensures same { IfOk result (λ string. string ≡ part self.now m n) }
        ensures empty { part self.now m n ≡ [] → IsOk result }
    {
        StrVal::copied(alloc, part_of(self.bytes(), m, n))
    }

    /// The least place at or after `from`, itself at least 1, where `b` stands, counted from 1, or 0 where
    /// there is none. The empty string stands at each place up to the length and one. This is `POS`
    /// of ECMA-116. It takes time in proportion to both lengths, and no memory.
    pub fn position(&self, b: &StrVal, from: i64) -> u32
        ensures { result ≡ position self.now b.now from }
    {
        let text = self.bytes();
        let start = natural(from).saturating_sub(1);
        if start > text.len() {
            return 0;
        }
        match memmem::find(&text[start..], b.bytes()) {
            Some(at) => (start + at + 1) as u32,
            None => 0,
        }
    }

    /// This string with each letter `a` to `z` as its capital, and every other byte as it is. This is
    /// `UCASE$` of ECMA-116.
    pub fn upper(&self, alloc: Global) -> Result<StrVal, AllocError>
        ensures same { IfOk result (λ string. string ≡ upper self.now) }
        ensures empty { upper self.now ≡ [] → IsOk result }
    {
        let bytes = self.bytes();
        let mut capitals = Vec::with_capacity(alloc, bytes.len())?;
        for byte in bytes {
            capitals.push(byte.to_ascii_uppercase())?;
        }
        Ok(StrVal::holding(capitals))
    }

    /// This string with each letter `A` to `Z` as its small letter, and every other byte as it is. This is
    /// `LCASE$` of ECMA-116.
    pub fn lower(&self, alloc: Global) -> Result<StrVal, AllocError>
        ensures same { IfOk result (λ string. string ≡ lower self.now) }
        ensures empty { lower self.now ≡ [] → IsOk result }
    {
        let bytes = self.bytes();
        let mut small = Vec::with_capacity(alloc, bytes.len())?;
        for byte in bytes {
            small.push(byte.to_ascii_lowercase())?;
        }
        Ok(StrVal::holding(small))
    }

    /// This string without the spaces at its front; only byte 32 is a space. This is `LTRIM$`
    /// of ECMA-116.
    pub fn trim_left(&self, alloc: Global) -> Result<StrVal, AllocError>
        ensures same { IfOk result (λ string. string ≡ trim_left self.now) }
        ensures empty { trim_left self.now ≡ [] → IsOk result }
    {
        StrVal::copied(alloc, trimmed_left(self.bytes()))
    }

    /// This string without the spaces at its end; only byte 32 is a space. This is `RTRIM$`
    /// of ECMA-116.
    pub fn trim_right(&self, alloc: Global) -> Result<StrVal, AllocError>
        ensures same { IfOk result (λ string. string ≡ trim_right self.now) }
        ensures empty { trim_right self.now ≡ [] → IsOk result }
    {
        StrVal::copied(alloc, trimmed_right(self.bytes()))
    }

    /// The order of two strings: the first byte in which they differ decides, as a number, and a proper
    /// prefix is less.
    pub fn compare(&self, b: &StrVal) -> Ordering
        ensures { result ≡ compare self.now b.now }
    {
        self.bytes().cmp(&b.bytes())
    }
}

/// The number, or 0 where it is below 0.
fn natural(n: i64) -> usize
    ensures { result ≡ natural n }
{
    if n < 0 { 0 } else { n as usize }
}

/// The bytes `n` times, in a row.
fn repeated(alloc: Global, bytes: &[u8], n: usize) -> Result<Vec<u8>, AllocError>
    requires { n * length bytes.now ≤ MAX_STRING_LEN }
    ensures same { IfOk result (λ made. made.items ≡ repeat n bytes.now) }
    ensures empty { n * length bytes.now ≡ 0 → IsOk result }
{
    let mut made = Vec::with_capacity(alloc, n * bytes.len())?;
    for _ in 0..n {
        made.extend_from_slice(bytes)?;
    }
    Ok(made)
}

/// The bytes from place `m` to place `n`, counted from 1.
fn part_of(text: &[u8], m: i64, n: i64) -> &[u8]
    ensures same { result.now ≡ part text.now m n }
    ensures short { length result.now ≤ length text.now }
{
    let end = natural(n).min(text.len());
    let start = natural(m).saturating_sub(1).min(end);
    &text[start..end]
}

/// The text without the spaces at its front.
fn trimmed_left(text: &[u8]) -> &[u8]
    ensures same { result.now ≡ trim_left text.now }
    ensures short { length result.now ≤ length text.now }
{
    let mut rest = text;
    while let [b' ', more @ ..] = rest {
        rest = more;
    }
    rest
}

/// The text without the spaces at its end.
fn trimmed_right(text: &[u8]) -> &[u8]
    ensures same { result.now ≡ trim_right text.now }
    ensures short { length result.now ≤ length text.now }
{
    let mut rest = text;
    while let [more @ .., b' '] = rest {
        rest = more;
    }
    rest
}
