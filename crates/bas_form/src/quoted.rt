//! Text in quotes.

ghost use Rattle.std.specs.Prelude.{◌≡◌, ◌+◌, ◌≤◌, ◌<◌, length, IfSome};
ghost use Rattle.bas_form.specs.Quoted as quoted;

use crate::byte_class::ByteClass;
use crate::scan::{byte_end, past};

/// The place after a quote, bytes that are no quotes, and a quote.
#[tactic(auto, unfolding(crate::specs::Quoted::piece_end))]
pub fn piece_end(text: &[u8], at: usize) -> Option<usize>
    ensures value { result ≡ quoted.piece_end text.now at }
    ensures within { IfSome result (λ next. next ≤ length text.now) }
    ensures grows { IfSome result (λ next. at + 1 < next) }
{
    let quote = byte_end(text, at, ByteClass::Quote)?;
    let inside = past(text, quote, ByteClass::InQuotes);
    byte_end(text, inside, ByteClass::Quote)
}
