ghost use Rattle.std.specs.Prelude.{◌≡◌, ◌≤◌, ◌<◌, ◌++◌, [], length, take, IfOk, OnOk, OnErr, Some};
ghost use Rattle.bas_world.specs.Count.{CountMoves};
ghost use Rattle.bas_world.specs.Faults.{sink_failed};
ghost use Rattle.bas_world.specs.Plan.{plan_of, fails_next, after_call};

use crate::plan::CallPlan;
use crate::sink::{Sink, SinkFail};
use std::alloc::Global;
use std::marker::Model;

/// A sink in memory, of which the calls with the listed numbers fail.
#[derive(Debug, Drop)]
pub struct MemSink {
    bytes: Vec<u8>,
    calls: CallPlan,
}

impl Model for MemSink {
    ghost use Rattle.bas_world.specs.Memory.{SinkState, sink_code};

    ghost Value = { SinkState };

    ghost coded = { sink_code };

    ghost view = { λ s. record { taken = s.bytes.items; plan = s.calls } };
}

impl MemSink {
    /// An empty sink. `fails` are the numbers of the calls that fail, of which the first is 1. It
    /// takes no memory.
    pub fn new(alloc: Global, fails: Vec<u64>) -> MemSink
        ensures { result ≡ record { taken = []; plan = plan_of fails.items } }
    {
        MemSink {
            bytes: Vec::new(alloc),
            calls: CallPlan::new(fails),
        }
    }

    /// The bytes that were taken. It takes no memory.
    pub fn bytes(&self) -> &[u8]
        ensures { result.now ≡ self.now.taken }
    {
        self.bytes.as_slice()
    }
}

/// A call fails exactly where its number is listed, and then takes nothing. Every other call takes
/// all bytes, or none for want of memory.
impl Sink for MemSink {
    ghost taken = { λ s. Some s.taken };

    ghost faults = { λ s. s.plan.faults };

    fn write(&mut self, bytes: &[u8]) -> Result<usize, SinkFail>
        requires { 0 < length bytes.now }
        ensures within { IfOk result (λ count. (1 ≤ count) × (count ≤ length bytes.now)) }
        ensures whole { IfOk result (λ count. count ≡ length bytes.now) }
        ensures ok { OnOk result (self.new.taken ≡ self.old.taken ++ bytes.now) }
        ensures err { OnErr result (self.new.taken ≡ self.old.taken) }
        ensures failed { sink_failed result ≡ fails_next self.old.plan }
        ensures plan { self.new.plan ≡ after_call self.old.plan }
        ensures counted { CountMoves (sink_failed result) self.old.plan.faults self.new.plan.faults }
    {
        if self.calls.begin_call() {
            return Err(SinkFail::Failed);
        }
        match self.bytes.extend_from_slice(bytes) {
            Ok(()) => Ok(bytes.len()),
            Err(_) => Err(SinkFail::Memory),
        }
    }
}
