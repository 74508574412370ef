ghost use Rattle.std.specs.Prelude.{◌≡◌, ℕ};
ghost use Rattle.bas_vm.specs.Shown.{stacked};
ghost use Rattle.bas_vm.specs.Rows.{Writes, StoresOne, StoresEach, goes_to};

use crate::operand::{Operand, pop_number, pop_spot};
use crate::turn::{Step, Turn};
use bas_code::{Instr, StoreInstr};
use bas_dec::Dec;

// Stores a number in a cell, where there is that cell.
fn store_one(n: u16, x: Dec, cells: &mut Vec<Dec>) -> bool
    ensures { StoresOne n x cells.old.items result cells.new.items }
{
    let n = usize::from(n);
    if n >= cells.len() {
        return false;
    }
    cells[n] = x;
    true
}

// Pops that many references, and stores a number through each from the first pushed on.
fn store_each(count: u16, x: Dec, cells: &mut Vec<Dec>, stack: &mut Vec<Operand>) -> bool
    ensures { StoresEach count x cells.old.items (stacked stack.old.items) result cells.new.items (stacked stack.new.items) }
{
    if count == 0 {
        return true;
    }
    let Some(n) = pop_spot(stack) else {
        return false;
    };
    if !store_each(count - 1, x, cells, stack) {
        return false;
    }
    store_one(n, x, cells)
}

fn store_through(count: u16, cells: &mut Vec<Dec>, stack: &mut Vec<Operand>) -> Step
    ensures leads { (slots : ℕ) → Writes slots cells.old.items cells.new.items (Instr.Store (StoreInstr.Store count)) (stacked stack.old.items) result (stacked stack.new.items) }
    ensures near { goes_to result ≡ None }
{
    let Some(x) = pop_number(stack) else {
        return Step::Ends(Turn::Lost);
    };
    if store_each(count, x, cells, stack) {
        Step::Onward
    } else {
        Step::Ends(Turn::Lost)
    }
}

/// Executes what stores values.
pub fn store(i: StoreInstr, cells: &mut Vec<Dec>, stack: &mut Vec<Operand>) -> Step
    ensures leads { (slots : ℕ) → Writes slots cells.old.items cells.new.items (Instr.Store i) (stacked stack.old.items) result (stacked stack.new.items) }
    ensures near { goes_to result ≡ None }
{
    match i {
        StoreInstr::Store(count) => store_through(count, cells, stack),
    }
}
