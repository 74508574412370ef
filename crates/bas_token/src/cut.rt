//! Cutting a line into tokens.

ghost use Rattle.std.specs.Prelude.{◌≡◌, ℕ, ◌+◌, ◌≤◌, ◌<◌, ◌⊎◌, length, List, IfOk, IfSome, IsErrOf, MatchResult};
ghost use Rattle.bas_form.specs.Bytes as bytes;
ghost use Rattle.bas_token.specs.Reading as reading;
ghost use Rattle.bas_token.specs.Tokens.{AreTokens, IsBadByte};
ghost use Rattle.bas_form.specs.declared.byte_class.ByteClass.TheVariants.{Space};
ghost use Rattle.bas_token.specs.declared.token.Token.{Token};

use crate::shape::{numeral_end, quoted_end, remark_end, sign_end, word_end};
use crate::token::{Token, TokenFault, TokenKind};
use bas_form::{ByteClass, past};
use std::alloc::Global;

/// The token at a place. `first` is the first token's place.
#[tactic(auto, unfolding(crate::specs::Reading::token_at))]
fn token_at(line: &[u8], first: usize, at: usize) -> Option<Token>
    requires few { length line.now ≤ 4096 }
    requires first_place { first ≡ bytes.past line.now Space 0 }
    requires inside { at ≤ length line.now }
    ensures value { result ≡ reading.token_at line.now at }
    ensures within { IfSome result (λ token. token.to ≤ length line.now) }
    ensures grows { IfSome result (λ token. at < token.to) }
{
    let (kind, to) = if let Some(end) = remark_end(line, first, at) {
        (TokenKind::Remark, end)
    } else if let Some(end) = word_end(line, at) {
        (TokenKind::Word, end)
    } else if let Some(end) = numeral_end(line, at) {
        (TokenKind::Numeral, end)
    } else if let Some(end) = quoted_end(line, at) {
        (TokenKind::Quoted, end)
    } else if let Some(end) = sign_end(line, at) {
        (TokenKind::Sign, end)
    } else {
        return None;
    };
    Some(Token {
        kind,
        from: at as u16,
        to: to as u16,
    })
}

/// The token behind spaces.
#[tactic(auto, unfolding(crate::specs::Reading::next_token))]
fn next_token(line: &[u8], first: usize, at: usize) -> Option<Token>
    requires few { length line.now ≤ 4096 }
    requires first_place { first ≡ bytes.past line.now Space 0 }
    requires inside { at ≤ length line.now }
    ensures value { result ≡ reading.next_token line.now at }
    ensures within { IfSome result (λ token. token.to ≤ length line.now) }
    ensures grows { IfSome result (λ token. at < token.to) }
{
    token_at(line, first, past(line, at, ByteClass::Space))
}

/// The tokens of a line of at most 4,096 bytes, from left to right. Each is the longest at its place,
/// a remark goes before a word of equal length, and spaces and tabs between tokens are left out.
pub fn tokens(alloc: Global, line: &[u8]) -> Result<Vec<Token>, TokenFault>
    requires { length line.now ≤ 4096 }
    ensures found { IfOk result (λ tokens. AreTokens line.now tokens.items) }

    // No other list of tokens is the line's, and where there is one only memory may be wanting.
    ensures only { (tokens : List Token) → AreTokens line.now tokens → MatchResult result (λ found. found.items ≡ tokens) (λ fault. fault ≡ TokenFault.Memory) }
    ensures bad { (at : ℕ) → IsErrOf result (TokenFault.BadToken at) → IsBadByte line.now at }

    // Where a byte is bad, it is told, unless memory is wanting.
    ensures bad_only { (at : ℕ) → IsBadByte line.now at → MatchResult result (λ _. ⊥) (λ fault. (fault ≡ TokenFault.BadToken at) ⊎ (fault ≡ TokenFault.Memory)) }
{
    let first = past(line, 0, ByteClass::Space);
    let mut found = Vec::new(alloc);
    let mut at = 0;
    while let Some(token) = next_token(line, first, at) {
        found.push(token)?;
        at = token.to as usize;
    }
    let end = past(line, at, ByteClass::Space);
    if end == line.len() {
        Ok(found)
    } else {
        Err(TokenFault::BadToken { at: end as u16 })
    }
}
