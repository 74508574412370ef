ghost use Rattle.std.specs.Prelude.{◌≡◌, ℕ, ◌≤◌, ◌<◌, List, Option, length, ◌++◌, take, IfOk, OnErr};
ghost use Rattle.std.specs.Option.{option_map};
ghost use Rattle.bas_world.specs.Count.{CountMoves};
ghost use Rattle.bas_world.specs.Faults.{sink_failed};

/// Why a sink took nothing: the outside failed, or there was no memory.
#[derive(Clone, Copy, Debug)]
pub enum SinkFail {
    Failed,
    Memory,
}

/// Where bytes of output go.
pub trait Sink {
    /// The bytes that were taken, where the sink tells them.
    ghost taken: { Self → Option (List ℕ) };

    /// How many faults there were. It never falls, and stands still at its last value.
    ghost faults: { Self → ℕ };

    /// Takes some bytes off the front, at least one, and answers how many.
    fn write(&mut self, bytes: &[u8]) -> Result<usize, SinkFail>
        requires { 0 < length bytes.now }
        ensures within { IfOk result (λ count. (1 ≤ count) × (count ≤ length bytes.now)) }
        ensures ok { IfOk result (λ count. taken self.new ≡ option_map (λ before. before ++ take count bytes.now) (taken self.old)) }
        ensures err { OnErr result (taken self.new ≡ taken self.old) }
        ensures counted { CountMoves (sink_failed result) (faults self.old) (faults self.new) };
}
