ghost use Rattle.std.specs.Prelude.{◌≡◌, [], IsSome};
ghost use Rattle.bas_mean.specs.Operators.{exception_of, answer_of};
ghost use Rattle.bas_code.specs.Machine.{operator_of};
ghost use Rattle.bas_vm.specs.Shown.{stacked};
ghost use Rattle.bas_vm.specs.Rows.{Moves, MovesAt, IsAnswer, value_of, goes_to};

use crate::operand::{Operand, pop_number, push_operand};
use crate::stop::stop;
use crate::turn::{Step, Turn};
use bas_base::Ex;
use bas_code::{ArithInstr, Instr, Proc};
use bas_dec::{Dec, DecFault};

// The exception of a fault, where that of a zero divisor is given.
fn exception_of(zero_divisor: Ex, fault: DecFault) -> Ex
    ensures { result ≡ exception_of zero_divisor fault }
{
    match fault {
        DecFault::Overflow => Ex(1002),
        DecFault::ZeroDivide => zero_divisor,
        DecFault::NotWhole => Ex(3010),
        DecFault::BadRoot => Ex(3005),
    }
}

fn answer_of(zero_divisor: Ex, value: Result<Dec, DecFault>) -> Result<Dec, Ex>
    ensures { IsAnswer result (answer_of zero_divisor value) }
{
    match value {
        Ok(z) => Ok(z),
        Err(fault) => Err(exception_of(zero_divisor, fault)),
    }
}

// The value of an operator on two numbers, or the exception that it raises.
fn value_of(i: ArithInstr, x: Dec, y: Dec) -> Result<Dec, Ex>
    requires { IsSome (operator_of i) }
    ensures { IsAnswer result (value_of i x y) }
{
    match i {
        ArithInstr::Add => answer_of(Ex(3001), x.add(y)),
        ArithInstr::Sub => answer_of(Ex(3001), x.sub(y)),
        ArithInstr::Mul => answer_of(Ex(3001), x.mul(y)),
        ArithInstr::Div => answer_of(Ex(3001), x.div(y)),
        ArithInstr::Power => answer_of(Ex(3003), x.power(y)),
        ArithInstr::Negate => unreachable!(),
    }
}

fn negate(stack: &mut Vec<Operand>) -> Step
    ensures leads { Moves (Instr.Arith ArithInstr.Negate) (stacked stack.old.items) result (stacked stack.new.items) }
    ensures near { goes_to result ≡ None }
{
    match pop_number(stack) {
        Some(x) => push_operand(stack, Operand::Number(x.negate())),
        None => Step::Ends(Turn::Lost),
    }
}

fn join(i: ArithInstr, proc: &Proc, pc: usize, stack: &mut Vec<Operand>) -> Step
    requires operator { IsSome (operator_of i) }
    requires unguarded { proc.now.guards ≡ [] }
    ensures leads { MovesAt proc.now pc (Instr.Arith i) (stacked stack.old.items) result (stacked stack.new.items) }
    ensures near { goes_to result ≡ None }
{
    let Some(y) = pop_number(stack) else {
        return Step::Ends(Turn::Lost);
    };
    let Some(x) = pop_number(stack) else {
        return Step::Ends(Turn::Lost);
    };
    match value_of(i, x, y) {
        Ok(z) => push_operand(stack, Operand::Number(z)),
        Err(ex) => Step::Ends(stop(proc, pc, ex)),
    }
}

/// Executes an operator, at an address of a body without `WHEN` blocks.
pub fn arith(i: ArithInstr, proc: &Proc, pc: usize, stack: &mut Vec<Operand>) -> Step
    requires { proc.now.guards ≡ [] }
    ensures leads { MovesAt proc.now pc (Instr.Arith i) (stacked stack.old.items) result (stacked stack.new.items) }
    ensures near { goes_to result ≡ None }
{
    match i {
        ArithInstr::Negate => negate(stack),
        _ => join(i, proc, pc, stack),
    }
}
