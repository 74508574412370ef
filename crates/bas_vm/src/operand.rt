ghost use Rattle.std.specs.Prelude.{◌≡◌, ℕ, Bool, List, ◌∷◌};
ghost use Rattle.bas_dec.specs.Number.{Number as Decimal};
ghost use Rattle.bas_code.specs.State.{Spot as Reference, Operand as Standing, ANumber, State};
ghost use Rattle.bas_code.specs.Machine.{on_number, on_truth, on_spot, with_some};
ghost use Rattle.bas_vm.specs.Shown.{stacked, operand_of, reference};
ghost use Rattle.bas_vm.specs.Rows.{IsPushed, goes_to};

use crate::turn::{Step, Turn};
use bas_dec::Dec;

/// What stands on the operand stack.
#[derive(Clone, Copy, Debug)]
pub enum Operand {
    Number(Dec),
    Truth(bool),
    /// A reference: the number of a cell.
    Spot(u16),
}

/// Pops a number, where one stands on top.
pub fn pop_number(stack: &mut Vec<Operand>) -> Option<Dec>
    ensures { (go : Decimal → List Standing → State) →
        on_number (stacked stack.old.items) go ≡ with_some result (λ x. go x (stacked stack.new.items)) }
{
    let Some(top) = stack.pop() else {
        return None;
    };
    match top {
        Operand::Number(x) => Some(x),
        Operand::Truth(_) => None,
        Operand::Spot(_) => None,
    }
}

/// Pops a truth, where one stands on top.
pub fn pop_truth(stack: &mut Vec<Operand>) -> Option<bool>
    ensures { (go : Bool → List Standing → State) →
        on_truth (stacked stack.old.items) go ≡ with_some result (λ b. go b (stacked stack.new.items)) }
{
    let Some(top) = stack.pop() else {
        return None;
    };
    match top {
        Operand::Truth(b) => Some(b),
        Operand::Number(_) => None,
        Operand::Spot(_) => None,
    }
}

/// Pops a reference, where one stands on top.
pub fn pop_spot(stack: &mut Vec<Operand>) -> Option<u16>
    ensures { (go : Reference → List Standing → State) →
        on_spot (stacked stack.old.items) go ≡ with_some result (λ n. go (reference n) (stacked stack.new.items)) }
{
    let Some(top) = stack.pop() else {
        return None;
    };
    match top {
        Operand::Spot(n) => Some(n),
        Operand::Number(_) => None,
        Operand::Truth(_) => None,
    }
}

/// Pushes an operand, and goes on.
pub fn push_operand(stack: &mut Vec<Operand>, x: Operand) -> Step
    ensures { IsPushed result (stacked stack.old.items) (stacked stack.new.items) (operand_of x) }
{
    match stack.push(x) {
        Ok(()) => Step::Onward,
        Err(_) => Step::Ends(Turn::Memory),
    }
}
