ghost use Rattle.std.specs.Prelude.{◌≡◌, ◌≤◌, ◌<◌, ◌↔◌, ◌++◌, [], length, take, drop, min, IfOk, Some};

use crate::copy::copy_front;
use crate::source::{Failed, Source};
use std::marker::Model;

/// A source in memory that never fails.
#[derive(Debug, Drop)]
pub struct SureSource {
    bytes: Vec<u8>,
    next: usize,
}

impl Model for SureSource {
    ghost use Rattle.std.specs.Prelude.{List, ℕ, ◌≤◌, length, drop};

    ghost Value = { List ℕ };

    ghost view = { λ s. drop s.next s.bytes.items };

    ghost invariant = { λ s. s.next ≤ length s.bytes.items };
}

impl SureSource {
    /// A source of these bytes. It takes no memory.
    pub fn new(bytes: Vec<u8>) -> SureSource
        ensures { result ≡ bytes.items }
    {
        SureSource { bytes, next: 0 }
    }
}

/// No call fails, and each reads as many bytes as fit.
impl Source for SureSource {
    ghost left = { λ s. Some s };

    ghost faults = { λ _. 0 };

    fn read(&mut self, buf: &mut [u8]) -> Result<usize, Failed>
        ensures count { result ≡ Ok (min (length self.old) (length buf.old)) }
        ensures bytes { IfOk result (λ count. buf.new ≡ take count self.old ++ drop count buf.old) }
        ensures left { IfOk result (λ count. self.new ≡ drop count self.old) }
    {
        let count = copy_front(&self.bytes[self.next..], buf);
        self.next += count;
        Ok(count)
    }
}
