//! Where the token ends that a byte begins, kind by kind.

ghost use Rattle.std.specs.Prelude.{◌≡◌, ◌+◌, ◌≤◌, ◌<◌, length, IfSome};
ghost use Rattle.bas_form.specs.Bytes as bytes;
ghost use Rattle.bas_token.specs.Reading as reading;
ghost use Rattle.bas_form.specs.declared.byte_class.ByteClass.TheVariants.{Space};

use bas_form::{ByteClass, byte_end, past, piece_end};

#[tactic(auto, unfolding(crate::specs::Reading::word_end))]
pub(crate) fn word_end(line: &[u8], at: usize) -> Option<usize>
    ensures value { result ≡ reading.word_end line.now at }
    ensures within { IfSome result (λ next. next ≤ length line.now) }
    ensures grows { IfSome result (λ next. at < next) }
{
    let letter = byte_end(line, at, ByteClass::Letter)?;
    let body = past(line, letter, ByteClass::WordPart);
    Some(byte_end(line, body, ByteClass::Dollar).unwrap_or(body))
}

#[tactic(auto, unfolding(crate::specs::Reading::digits_end))]
fn digits_end(line: &[u8], at: usize) -> Option<usize>
    ensures value { result ≡ reading.digits_end line.now at }
    ensures within { IfSome result (λ next. next ≤ length line.now) }
    ensures grows { IfSome result (λ next. at < next) }
{
    let digit = byte_end(line, at, ByteClass::Digit)?;
    Some(past(line, digit, ByteClass::Digit))
}

#[tactic(auto, unfolding(crate::specs::Reading::fraction_end))]
fn fraction_end(line: &[u8], at: usize) -> Option<usize>
    ensures value { result ≡ reading.fraction_end line.now at }
    ensures within { IfSome result (λ next. next ≤ length line.now) }
    ensures grows { IfSome result (λ next. at < next) }
{
    let point = byte_end(line, at, ByteClass::Point)?;
    Some(digits_end(line, point).unwrap_or(point))
}

#[tactic(auto, unfolding(crate::specs::Reading::whole_end))]
fn whole_end(line: &[u8], at: usize) -> Option<usize>
    ensures value { result ≡ reading.whole_end line.now at }
    ensures within { IfSome result (λ next. next ≤ length line.now) }
    ensures grows { IfSome result (λ next. at < next) }
{
    let digits = digits_end(line, at)?;
    Some(fraction_end(line, digits).unwrap_or(digits))
}

#[tactic(auto, unfolding(crate::specs::Reading::bare_fraction_end))]
fn bare_fraction_end(line: &[u8], at: usize) -> Option<usize>
    ensures value { result ≡ reading.bare_fraction_end line.now at }
    ensures within { IfSome result (λ next. next ≤ length line.now) }
    ensures grows { IfSome result (λ next. at < next) }
{
    let point = byte_end(line, at, ByteClass::Point)?;
    digits_end(line, point)
}

#[tactic(auto, unfolding(crate::specs::Reading::exponent_end))]
fn exponent_end(line: &[u8], at: usize) -> Option<usize>
    ensures value { result ≡ reading.exponent_end line.now at }
    ensures within { IfSome result (λ next. next ≤ length line.now) }
    ensures grows { IfSome result (λ next. at < next) }
{
    let letter = byte_end(line, at, ByteClass::LetterE)?;
    let sign = byte_end(line, letter, ByteClass::PlusOrMinus).unwrap_or(letter);
    digits_end(line, sign)
}

#[tactic(auto, unfolding(crate::specs::Reading::mantissa_end))]
fn mantissa_end(line: &[u8], at: usize) -> Option<usize>
    ensures value { result ≡ reading.mantissa_end line.now at }
    ensures within { IfSome result (λ next. next ≤ length line.now) }
    ensures grows { IfSome result (λ next. at < next) }
{
    match whole_end(line, at) {
        Some(end) => Some(end),
        None => bare_fraction_end(line, at),
    }
}

#[tactic(auto, unfolding(crate::specs::Reading::numeral_end))]
pub(crate) fn numeral_end(line: &[u8], at: usize) -> Option<usize>
    ensures value { result ≡ reading.numeral_end line.now at }
    ensures within { IfSome result (λ next. next ≤ length line.now) }
    ensures grows { IfSome result (λ next. at < next) }
{
    let mantissa = mantissa_end(line, at)?;
    Some(exponent_end(line, mantissa).unwrap_or(mantissa))
}

fn pieces_past(line: &[u8], from: usize) -> usize
    requires { from ≤ length line.now }
    ensures value { result ≡ reading.pieces_past line.now from }
    ensures within { result ≤ length line.now }
    ensures grows { from ≤ result }
{
    let mut at = from;
    while let Some(next) = piece_end(line, at) {
        at = next;
    }
    at
}

#[tactic(auto, unfolding(crate::specs::Reading::quoted_end))]
pub(crate) fn quoted_end(line: &[u8], at: usize) -> Option<usize>
    ensures value { result ≡ reading.quoted_end line.now at }
    ensures within { IfSome result (λ next. next ≤ length line.now) }
    ensures grows { IfSome result (λ next. at < next) }
{
    let first = piece_end(line, at)?;
    Some(pieces_past(line, first))
}

#[tactic(auto, unfolding(crate::specs::Reading::pair_end))]
fn pair_end(line: &[u8], first: ByteClass, second: ByteClass, at: usize) -> Option<usize>
    ensures value { result ≡ reading.pair_end line.now first second at }
    ensures within { IfSome result (λ next. next ≤ length line.now) }
    ensures grows { IfSome result (λ next. at < next) }
{
    let one = byte_end(line, at, first)?;
    Some(byte_end(line, one, second).unwrap_or(one))
}

#[tactic(auto, unfolding(crate::specs::Reading::sign_end))]
pub(crate) fn sign_end(line: &[u8], at: usize) -> Option<usize>
    ensures value { result ≡ reading.sign_end line.now at }
    ensures within { IfSome result (λ next. next ≤ length line.now) }
    ensures grows { IfSome result (λ next. at < next) }
{
    if let Some(end) = byte_end(line, at, ByteClass::PlainSign) {
        return Some(end);
    }
    if let Some(end) = pair_end(line, ByteClass::Less, ByteClass::EqualOrGreater, at) {
        return Some(end);
    }
    if let Some(end) = pair_end(line, ByteClass::Equal, ByteClass::LessOrGreater, at) {
        return Some(end);
    }
    pair_end(line, ByteClass::Greater, ByteClass::LessOrEqual, at)
}

#[tactic(auto, unfolding(crate::specs::Reading::rem_word_end))]
fn rem_word_end(line: &[u8], at: usize) -> Option<usize>
    ensures value { result ≡ reading.rem_word_end line.now at }
    ensures within { IfSome result (λ next. next ≤ length line.now) }
    ensures grows { IfSome result (λ next. at < next) }
{
    let r = byte_end(line, at, ByteClass::LetterR)?;
    let e = byte_end(line, r, ByteClass::LetterE)?;
    let m = byte_end(line, e, ByteClass::LetterM)?;
    match (
        byte_end(line, m, ByteClass::WordPart),
        byte_end(line, m, ByteClass::Dollar),
    ) {
        (None, None) => Some(m),
        _ => None,
    }
}

#[tactic(auto, unfolding(crate::specs::Reading::rem_end))]
fn rem_end(line: &[u8], first: usize, at: usize) -> Option<usize>
    requires { first ≡ bytes.past line.now Space 0 }
    ensures value { result ≡ reading.rem_end line.now at }
    ensures within { IfSome result (λ next. next ≤ length line.now) }
    ensures grows { IfSome result (λ next. at < next) }
{
    if at <= first {
        rem_word_end(line, at)
    } else {
        None
    }
}

#[tactic(auto, unfolding(crate::specs::Reading::opening_end))]
fn opening_end(line: &[u8], first: usize, at: usize) -> Option<usize>
    requires { first ≡ bytes.past line.now Space 0 }
    ensures value { result ≡ reading.opening_end line.now at }
    ensures within { IfSome result (λ next. next ≤ length line.now) }
    ensures grows { IfSome result (λ next. at < next) }
{
    match byte_end(line, at, ByteClass::ExclamationMark) {
        Some(end) => Some(end),
        None => rem_end(line, first, at),
    }
}

#[tactic(auto, unfolding(crate::specs::Reading::remark_end))]
pub(crate) fn remark_end(line: &[u8], first: usize, at: usize) -> Option<usize>
    requires { first ≡ bytes.past line.now Space 0 }
    ensures value { result ≡ reading.remark_end line.now at }
    ensures within { IfSome result (λ next. next ≤ length line.now) }
    ensures grows { IfSome result (λ next. at < next) }
{
    let opened = opening_end(line, first, at)?;
    let end = past(line, opened, ByteClass::InRemark);
    if end == line.len() { Some(end) } else { None }
}
