ghost use Rattle.std.specs.Prelude.{◌≡◌, ◌≤◌, ◌<◌, ◌++◌, [], length, IfOk, OnOk, OnErr, Some, false};
ghost use Rattle.bas_world.specs.Faults.{sink_failed};

use crate::sink::{Sink, SinkFail};
use std::alloc::Global;
use std::marker::Model;

/// A sink in memory that never fails.
#[derive(Debug, Drop)]
pub struct SureSink {
    bytes: Vec<u8>,
}

impl Model for SureSink {
    ghost use Rattle.std.specs.Prelude.{List, ℕ};

    ghost Value = { List ℕ };

    ghost view = { λ s. s.bytes.items };
}

impl SureSink {
    /// An empty sink. It takes no memory.
    pub fn new(alloc: Global) -> SureSink
        ensures { result ≡ [] }
    {
        SureSink {
            bytes: Vec::new(alloc),
        }
    }

    /// The bytes that were taken. It takes no memory.
    pub fn bytes(&self) -> &[u8]
        ensures { result.now ≡ self.now }
    {
        self.bytes.as_slice()
    }
}

/// No call fails. A call takes all bytes, or none for want of memory.
impl Sink for SureSink {
    ghost taken = { λ s. Some s };

    ghost faults = { λ _. 0 };

    fn write(&mut self, bytes: &[u8]) -> Result<usize, SinkFail>
        requires { 0 < length bytes.now }
        ensures whole { IfOk result (λ count. count ≡ length bytes.now) }
        ensures ok { OnOk result (self.new ≡ self.old ++ bytes.now) }
        ensures err { OnErr result (self.new ≡ self.old) }
        ensures failed { sink_failed result ≡ false }
    {
        match self.bytes.extend_from_slice(bytes) {
            Ok(()) => Ok(bytes.len()),
            Err(_) => Err(SinkFail::Memory),
        }
    }
}
