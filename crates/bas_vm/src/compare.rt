ghost use Rattle.std.specs.Prelude.{◌≡◌};
ghost use Rattle.bas_mean.specs.Operators.{related};
ghost use Rattle.bas_code.specs.Machine.{rel_of};
ghost use Rattle.bas_vm.specs.Shown.{stacked};
ghost use Rattle.bas_vm.specs.Rows.{Moves, goes_to};

use crate::operand::{Operand, pop_number, push_operand};
use crate::turn::{Step, Turn};
use bas_code::{CompareInstr, Instr, Relation};
use bas_dec::Dec;

// Whether two numbers are so related.
fn related(relation: Relation, x: Dec, y: Dec) -> bool
    ensures { result ≡ related (rel_of relation) x y }
{
    let order = x.compare(y);
    match relation {
        Relation::Equal => order.is_eq(),
        Relation::NotEqual => order.is_ne(),
        Relation::Less => order.is_lt(),
        Relation::Greater => order.is_gt(),
        Relation::AtMost => order.is_le(),
        Relation::AtLeast => order.is_ge(),
    }
}

fn compare_numbers(relation: Relation, stack: &mut Vec<Operand>) -> Step
    ensures leads { Moves (Instr.Compare (CompareInstr.CompareNum relation)) (stacked stack.old.items) result (stacked stack.new.items) }
    ensures near { goes_to result ≡ None }
{
    let Some(y) = pop_number(stack) else {
        return Step::Ends(Turn::Lost);
    };
    let Some(x) = pop_number(stack) else {
        return Step::Ends(Turn::Lost);
    };
    push_operand(stack, Operand::Truth(related(relation, x, y)))
}

/// Executes a comparison.
pub fn compare(i: CompareInstr, stack: &mut Vec<Operand>) -> Step
    ensures leads { Moves (Instr.Compare i) (stacked stack.old.items) result (stacked stack.new.items) }
    ensures near { goes_to result ≡ None }
{
    match i {
        CompareInstr::CompareNum(relation) => compare_numbers(relation, stack),
    }
}
