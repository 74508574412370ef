ghost use Rattle.std.specs.Prelude.{◌≡◌, ℕ, ◌≤◌, ◌<◌, ◌↔◌, List, Option, [], length, ◌++◌, take, drop, IfOk, OnErr, IfSome};
ghost use Rattle.std.specs.Option.{option_map};
ghost use Rattle.bas_world.specs.Count.{CountMoves};
ghost use Rattle.bas_world.specs.Faults.{source_failed};

/// The outside failed.
#[derive(Clone, Copy, Debug)]
pub struct Failed;

/// Bytes of input, read from front to back.
pub trait Source {
    /// The bytes that are left, where the source tells them.
    ghost left: { Self → Option (List ℕ) };

    /// How many faults there were. It never falls, and stands still at its last value.
    ghost faults: { Self → ℕ };

    /// Reads some of the bytes that are left into the front of `buf`, and answers how many: with
    /// room in `buf`, 0 only at the end of input.
    fn read(&mut self, buf: &mut [u8]) -> Result<usize, Failed>
        ensures within { IfOk result (λ count. count ≤ length buf.old) }
        ensures bytes { IfOk result (λ count. IfSome (left self.old) (λ bytes. (count ≤ length bytes) × (buf.new ≡ take count bytes ++ drop count buf.old))) }
        ensures end { IfOk result (λ count. IfSome (left self.old) (λ bytes. 0 < length buf.old → (count ≡ 0) ↔ (bytes ≡ []))) }
        ensures left { IfOk result (λ count. left self.new ≡ option_map (λ bytes. drop count bytes) (left self.old)) }
        ensures err { OnErr result (left self.new ≡ left self.old) }
        ensures counted { CountMoves (source_failed result) (faults self.old) (faults self.new) };
}
