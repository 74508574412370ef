//! A rule that is broken at a line.

ghost use Rattle.std.specs.Prelude.{◌≡◌};
ghost use Rattle.std.specs.Option.{option_map};
ghost use Rattle.bas_check.specs.Faults.{broken_at, fault_told};

use bas_base::Line;

/// A line, and the least rule that is broken there.
#[derive(Clone, Copy, Debug)]
pub struct Fault {
    pub line: Line,
    /// 1 to 24.
    pub rule: u8,
}

/// The fault of a line, where a rule is broken there.
pub fn fault_at(line: Line, rule: Option<u8>) -> Option<Fault>
    ensures { option_map fault_told result ≡ broken_at line rule }
{
    match rule {
        Some(rule) => Some(Fault { line, rule }),
        None => None,
    }
}
