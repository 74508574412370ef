ghost use Rattle.std.specs.Prelude.{◌≡◌, List, Option, slice_get};
ghost use Rattle.bas_vm.specs.Steps.{target_of};
ghost use Rattle.bas_vm.specs.Fit.{is_marked, goes_right, go_right, is_fit};

use bas_code::{Instr, JumpInstr, Proc};

fn is_marked(code: &[Instr], a: u16) -> bool
    ensures { result ≡ is_marked (slice_get code.now a) }
{
    matches!(code.get(usize::from(a)), Some(Instr::Mark(_)))
}

fn target_of(i: &Instr) -> Option<u16>
    ensures { result ≡ target_of i.now }
{
    match i {
        Instr::Jump(JumpInstr::Jump(a) | JumpInstr::JumpFalse(a) | JumpInstr::JumpTrue(a)) => Some(
            *a,
        ),
        _ => None,
    }
}

fn goes_right(code: &[Instr], at: usize, i: &Instr) -> bool
    ensures { result ≡ goes_right code.now at (target_of i.now) }
{
    match target_of(i) {
        None => true,
        Some(a) => at < usize::from(a) || is_marked(code, a),
    }
}

fn go_right(code: &[Instr]) -> bool
    ensures { result ≡ go_right code.now code.now 0 }
{
    for (at, i) in code.iter().enumerate() {
        if !goes_right(code, at, i) {
            return false;
        }
    }
    true
}

/// Whether a body is run: it has no `WHEN` block, and each of its jumps goes forward or to a mark.
/// It looks once at each instruction.
pub fn is_fit(proc: &Proc) -> bool
    ensures { result ≡ is_fit proc.now }
{
    proc.guards.items().is_empty() && go_right(proc.code.items())
}
