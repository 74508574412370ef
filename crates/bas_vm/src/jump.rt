ghost use Rattle.std.specs.Prelude.{◌≡◌, IfSome};
ghost use Rattle.bas_vm.specs.Shown.{stacked};
ghost use Rattle.bas_vm.specs.Rows.{Moves, goes_to, jump_target};

use crate::operand::{Operand, pop_truth};
use crate::turn::{Step, Turn};
use bas_code::{Instr, JumpInstr};

/// Executes a jump.
pub fn jump(i: JumpInstr, stack: &mut Vec<Operand>) -> Step
    ensures leads { Moves (Instr.Jump i) (stacked stack.old.items) result (stacked stack.new.items) }
    ensures target { IfSome (goes_to result) (λ a. a ≡ jump_target i) }
{
    match i {
        JumpInstr::Jump(a) => Step::Goes(a),
        JumpInstr::JumpFalse(a) => match pop_truth(stack) {
            Some(true) => Step::Onward,
            Some(false) => Step::Goes(a),
            None => Step::Ends(Turn::Lost),
        },
        JumpInstr::JumpTrue(a) => match pop_truth(stack) {
            Some(true) => Step::Goes(a),
            Some(false) => Step::Onward,
            None => Step::Ends(Turn::Lost),
        },
    }
}
