//! Where the bytes of a class end.

ghost use Rattle.std.specs.Prelude.{◌≡◌, ◌+◌, ◌≤◌, ◌<◌, length, IfSome};
ghost use Rattle.bas_form.specs.Bytes as bytes;

use crate::byte_class::ByteClass;

/// The place after a byte of the class.
pub fn byte_end(text: &[u8], at: usize, class: ByteClass) -> Option<usize>
    ensures value { result ≡ bytes.byte_end text.now class at }
    ensures within { IfSome result (λ next. next ≤ length text.now) }
    ensures grows { IfSome result (λ next. at < next) }
{
    if at < text.len() && class.has(text[at]) {
        Some(at + 1)
    } else {
        None
    }
}

/// The place after the bytes of the class that follow from a place on: the place itself where there is
/// none, as after the end of the text.
pub fn past(text: &[u8], from: usize, class: ByteClass) -> usize
    ensures value { result ≡ bytes.past text.now class from }
    ensures within { from ≤ length text.now → result ≤ length text.now }
    ensures grows { from ≤ result }
{
    let mut at = from;
    while at < text.len() && class.has(text[at]) {
        at += 1;
    }
    at
}
