ghost use Rattle.std.specs.Prelude.{◌≡◌};
ghost use Rattle.bas_vm.specs.Shown.{stacked, memory_of};
ghost use Rattle.bas_vm.specs.Rows.{Reads, goes_to};

use crate::cells::{cell_number, number_in};
use crate::operand::{Operand, push_operand};
use crate::turn::{Step, Turn};
use bas_code::{Instr, Place, PushInstr};
use bas_dec::Dec;

fn load(place: Place, slots: u16, cells: &[Dec], stack: &mut Vec<Operand>) -> Step
    ensures leads { Reads (memory_of slots cells.now) (Instr.Push (PushInstr.Load place)) (stacked stack.old.items) result (stacked stack.new.items) }
    ensures near { goes_to result ≡ None }
{
    let Some(n) = cell_number(place, slots) else {
        return Step::Ends(Turn::Lost);
    };
    match number_in(cells, n) {
        Some(x) => push_operand(stack, Operand::Number(x)),
        None => Step::Ends(Turn::Lost),
    }
}

fn refer(place: Place, slots: u16, cells: &[Dec], stack: &mut Vec<Operand>) -> Step
    ensures leads { Reads (memory_of slots cells.now) (Instr.Push (PushInstr.Ref place)) (stacked stack.old.items) result (stacked stack.new.items) }
    ensures near { goes_to result ≡ None }
{
    match cell_number(place, slots) {
        Some(n) => push_operand(stack, Operand::Spot(n)),
        None => Step::Ends(Turn::Lost),
    }
}

/// Executes what pushes a value or a reference, in a program with that many slots.
pub fn push(i: PushInstr, slots: u16, cells: &[Dec], stack: &mut Vec<Operand>) -> Step
    ensures leads { Reads (memory_of slots cells.now) (Instr.Push i) (stacked stack.old.items) result (stacked stack.new.items) }
    ensures near { goes_to result ≡ None }
{
    match i {
        PushInstr::Num(x) => push_operand(stack, Operand::Number(x)),
        PushInstr::Load(place) => load(place, slots, cells, stack),
        PushInstr::Ref(place) => refer(place, slots, cells, stack),
    }
}
