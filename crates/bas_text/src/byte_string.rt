//! The strings of BASIC.

ghost use Rattle.std.specs.Prelude.{◌≡◌, [], ◌<◌, ◌≤◌, ◌↔◌, length, IfOk, IsErrOf, IsOk, MatchOption};

use std::alloc::{AllocError, Global};
use std::marker::Model;

/// The most bytes that a string has.
pub const MAX_STRING_LEN: usize = 65_535;

/// Why a string was not made.
#[derive(Clone, Copy, Debug, PartialEq, Eq)]
pub enum TextFault {
    /// It would have more than 65,535 bytes.
    TooLong,
    /// There was no memory for it.
    Memory,
}

impl From<AllocError> for TextFault {
    ghost use Rattle.std.specs.Prelude.{◌≡◌};
    ghost use Rattle.bas_text.specs.declared.byte_string.TextFault.TheVariants.{Memory};

    ghost from_gives = { λ _ e. e ≡ Memory };

    fn from(_: AllocError) -> TextFault {
        TextFault::Memory
    }
}

/// A string: at most 65,535 bytes of any value. Contracts see it as the list of its bytes. A string of
/// no bytes takes no memory of the heap, so making one never fails.
#[derive(Debug, Drop)]
pub struct StrVal {
    stored: Vec<u8>,
}

impl Model for StrVal {
    ghost use Rattle.std.specs.Prelude.{List, ℕ, ◌≤◌, length};
    ghost use Rattle.bas_text.specs.declared.byte_string.TheConstants.{MAX_STRING_LEN};

    ghost Value = { List ℕ };

    ghost view = { λ s. s.stored.items };

    ghost invariant = { λ s. length s.stored.items ≤ MAX_STRING_LEN };
}

impl StrVal {
    /// The string of these bytes, or `TooLong` exactly where there are more than 65,535.
    pub fn of(alloc: Global, bytes: &[u8]) -> Result<StrVal, TextFault>
        ensures same { IfOk result (λ string. string ≡ bytes.now) }
        ensures too_long { IsErrOf result TextFault.TooLong ↔ (MAX_STRING_LEN < length bytes.now) }
        ensures empty { bytes.now ≡ [] → IsOk result }
    {
        if bytes.len() > MAX_STRING_LEN {
            return Err(TextFault::TooLong);
        }
        Ok(StrVal::copied(alloc, bytes)?)
    }

    /// The string of these bytes, which are not too many.
    pub(crate) fn copied(alloc: Global, bytes: &[u8]) -> Result<StrVal, AllocError>
        requires { length bytes.now ≤ MAX_STRING_LEN }
        ensures same { IfOk result (λ string. string ≡ bytes.now) }
        ensures empty { bytes.now ≡ [] → IsOk result }
    {
        let mut stored = Vec::with_capacity(alloc, bytes.len())?;
        stored.extend_from_slice(bytes)?;
        Ok(StrVal { stored })
    }

    /// The string of these bytes, which are not too many.
    pub(crate) fn holding(stored: Vec<u8>) -> StrVal
        requires { length stored.items ≤ MAX_STRING_LEN }
        ensures { result ≡ stored.items }
    {
        StrVal { stored }
    }

    /// The string of these bytes, where they are not too many.
    pub(crate) fn from_vec(bytes: Vec<u8>) -> Option<StrVal>
        ensures { MatchOption result (MAX_STRING_LEN < length bytes.items) (λ string. (string ≡ bytes.items) × (length bytes.items ≤ MAX_STRING_LEN)) }
    {
        if bytes.len() > MAX_STRING_LEN {
            None
        } else {
            Some(StrVal { stored: bytes })
        }
    }

    /// The bytes of the string, at most 65,535.
    pub fn bytes(&self) -> &[u8]
        ensures same { result.now ≡ self.now }
        ensures short { length result.now ≤ MAX_STRING_LEN }
    {
        self.stored.as_slice()
    }
}
