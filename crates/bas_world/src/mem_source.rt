ghost use Rattle.std.specs.Prelude.{◌≡◌, ◌≤◌, ◌<◌, ◌↔◌, ◌++◌, [], length, take, drop, min, is_ok, not, IfOk, OnErr, Some};
ghost use Rattle.bas_world.specs.Count.{CountMoves};
ghost use Rattle.bas_world.specs.Faults.{source_failed};
ghost use Rattle.bas_world.specs.Plan.{plan_of, fails_next, after_call};

use crate::copy::copy_front;
use crate::plan::CallPlan;
use crate::source::{Failed, Source};
use std::marker::Model;

/// A source in memory, of which the calls with the listed numbers fail.
#[derive(Debug, Drop)]
pub struct MemSource {
    bytes: Vec<u8>,
    next: usize,
    calls: CallPlan,
}

impl Model for MemSource {
    ghost use Rattle.std.specs.Prelude.{◌≤◌, length, drop};
    ghost use Rattle.bas_world.specs.Memory.{SourceState, source_code};

    ghost Value = { SourceState };

    ghost coded = { source_code };

    ghost view = { λ s. record { left = drop s.next s.bytes.items; plan = s.calls } };

    ghost invariant = { λ s. s.next ≤ length s.bytes.items };
}

impl MemSource {
    /// A source of these bytes. `fails` are the numbers of the calls that fail, of which the first
    /// is 1. It takes no memory.
    pub fn new(bytes: Vec<u8>, fails: Vec<u64>) -> MemSource
        ensures { result ≡ record { left = bytes.items; plan = plan_of fails.items } }
    {
        MemSource {
            bytes,
            next: 0,
            calls: CallPlan::new(fails),
        }
    }
}

/// A call fails exactly where its number is listed, and then leaves the bytes as they were. Every
/// other call reads as many bytes as fit.
impl Source for MemSource {
    ghost left = { λ s. Some s.left };

    ghost faults = { λ s. s.plan.faults };

    fn read(&mut self, buf: &mut [u8]) -> Result<usize, Failed>
        ensures within { IfOk result (λ count. count ≤ length buf.old) }
        ensures bytes { IfOk result (λ count. (count ≤ length self.old.left) × (buf.new ≡ take count self.old.left ++ drop count buf.old)) }
        ensures end { IfOk result (λ count. 0 < length buf.old → (count ≡ 0) ↔ (self.old.left ≡ [])) }
        ensures whole { IfOk result (λ count. count ≡ min (length self.old.left) (length buf.old)) }
        ensures left { IfOk result (λ count. self.new.left ≡ drop count self.old.left) }
        ensures err { OnErr result (self.new.left ≡ self.old.left) }
        ensures failed { source_failed result ≡ fails_next self.old.plan }
        ensures plan { self.new.plan ≡ after_call self.old.plan }
        ensures counted { CountMoves (source_failed result) self.old.plan.faults self.new.plan.faults }
    {
        if self.calls.begin_call() {
            return Err(Failed);
        }
        let count = copy_front(&self.bytes[self.next..], buf);
        self.next += count;
        Ok(count)
    }
}
