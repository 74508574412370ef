ghost use Rattle.std.specs.Prelude.{◌≡◌, true};
ghost use Rattle.bas_world.specs.Count.{CountMoves};
ghost use Rattle.bas_vm.specs.Fit.{is_fit};
ghost use Rattle.bas_vm.specs.Steps.{is_output_fault};
ghost use Rattle.bas_vm.specs.Runs.{BodyOf};

use crate::held::Held;
use crate::perform::perform;
use crate::turn::{Step, Turn};
use bas_code::Proc;
use bas_world::Sink;

/// Runs a body from its first instruction on.
pub fn run_body<O: Sink>(proc: &Proc, held: &mut Held, out: &mut O) -> Turn
    requires { is_fit proc.now ≡ true }
    ensures does { BodyOf proc.now held.old (O.taken out.old) (O.taken out.new) result }
    ensures counted { CountMoves (is_output_fault result) (O.faults out.old) (O.faults out.new) }
{
    let code = proc.code.items();
    let mut pc = 0;
    while pc < code.len() {
        match perform(code[pc], proc, pc, held, out) {
            Step::Onward => pc += 1,
            Step::Goes(a) => pc = usize::from(a),
            Step::Ends(turn) => return turn,
        }
    }
    Turn::Lost
}
