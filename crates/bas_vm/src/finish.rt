ghost use Rattle.std.specs.Prelude.{◌≡◌, List};
ghost use Rattle.bas_code.specs.State.{Operand as Standing};
ghost use Rattle.bas_vm.specs.Rows.{Moves, goes_to};

use crate::turn::{Step, Turn};
use bas_code::{Instr, RunInstr};

/// Executes what ends runs.
pub fn finish(i: RunInstr) -> Step
    ensures leads { (stack : List Standing) → Moves (Instr.Run i) stack result stack }
    ensures near { goes_to result ≡ None }
{
    match i {
        RunInstr::End => Step::Ends(Turn::Ended),
    }
}
