ghost use Rattle.std.specs.Prelude.{◌≡◌, [], Option};
ghost use Rattle.bas_world.specs.Count.{CountMoves};
ghost use Rattle.bas_vm.specs.Steps.{StepOf, Falls, fails_output};

use crate::arith::arith;
use crate::compare::compare;
use crate::finish::finish;
use crate::held::Held;
use crate::jump::jump;
use crate::mark::mark;
use crate::print::print;
use crate::push::push;
use crate::store::store;
use crate::turn::Step;
use bas_code::{Instr, Proc};
use bas_world::Sink;

/// Executes the instruction at an address of a body without `WHEN` blocks.
pub fn perform<O: Sink>(i: Instr, proc: &Proc, pc: usize, held: &mut Held, out: &mut O) -> Step
    requires { proc.now.guards ≡ [] }
    ensures does { StepOf proc.now pc i held.old held.new (O.taken out.old) (O.taken out.new) result }
    ensures falls { Falls i result held.old.left held.new.left }
    ensures counted { CountMoves (fails_output result) (O.faults out.old) (O.faults out.new) }
{
    match i {
        Instr::Mark(_) => mark(&mut held.left),
        Instr::Jump(i) => jump(i, &mut held.stack),
        Instr::Run(i) => finish(i),
        Instr::Push(i) => push(i, proc.slots, held.cells.as_slice(), &mut held.stack),
        Instr::Store(i) => store(i, &mut held.cells, &mut held.stack),
        Instr::Arith(i) => arith(i, proc, pc, &mut held.stack),
        Instr::Compare(i) => compare(i, &mut held.stack),
        Instr::Print(i) => print(i, proc, pc, held, out),
    }
}
