//! Tokens and their kinds.

use std::alloc::AllocFailed;

/// The kinds of tokens.
#[derive(Clone, Copy, Debug, PartialEq, Eq)]
pub enum TokenKind {
    /// A letter, then letters, digits and `_`, then perhaps `$`.
    Word,
    /// Digits with perhaps a point and perhaps an exponent.
    Numeral,
    /// Text between quotes, where two quotes stand for one.
    Quoted,
    /// One or two bytes of operators, separators and parentheses.
    Sign,
    /// A `!`, or `REM` as the first token, with all bytes after it.
    Remark,
}

/// A token: its kind, the place of its first byte in the line, and the place after its last.
#[derive(Clone, Copy, Debug, PartialEq, Eq)]
pub struct Token {
    /// The kind.
    pub kind: TokenKind,
    /// The place of the first byte, counted from 0.
    pub from: u16,
    /// The place after the last byte.
    pub to: u16,
}

/// Why a line has no tokens.
#[derive(Clone, Copy, Debug, PartialEq, Eq)]
pub enum TokenFault {
    /// The byte at this place is no space and begins no token.
    BadToken {
        /// The place of the byte, counted from 0.
        at: u16,
    },
    /// There was no memory for the tokens.
    Memory,
}

impl<T: Drop> From<AllocFailed<T>> for TokenFault {
    ghost use Rattle.std.specs.Prelude.{◌≡◌};
    ghost use Rattle.bas_token.specs.declared.token.TokenFault.TheVariants.{Memory};

    ghost from_gives = { λ _ e. e ≡ Memory };

    fn from(_: AllocFailed<T>) -> TokenFault {
        TokenFault::Memory
    }
}
