ghost use Rattle.std.specs.Prelude.{◌≡◌, ◌≤◌, ◌++◌, [], ◌∷◌, OnOk, Option};
ghost use Rattle.std.specs.Option.{option_map};
ghost use Rattle.bas_dec.specs.Text.{text_of};
ghost use Rattle.bas_world.specs.Count.{CountMoves};
ghost use Rattle.bas_world.specs.Faults.{sink_failed};
ghost use Rattle.bas_vm.specs.Rows.{room_bytes, room_column, item_bytes, item_column, turn_of, goes_to};
ghost use Rattle.bas_vm.specs.Steps.{StepOf, fails_output};
ghost use Rattle.bas_vm.specs.Took.{TookAll, TookPrefix};

use crate::held::Held;
use crate::operand::pop_number;
use crate::turn::{Step, Turn};
use crate::write::write_all;
use bas_code::{Instr, PrintInstr, Proc, TERMINAL};
use bas_dec::Dec;
use bas_world::{Sink, SinkFail};

/// A print line has at most this many columns.
const MARGIN: usize = 80;

// Ends the print line where an item of so many bytes does not fit behind what stands on it.
fn make_room<O: Sink>(count: usize, column: &mut usize, out: &mut O) -> Result<(), SinkFail>
    requires { count ≤ 64 }
    ensures all { OnOk result (TookAll (O.taken out.old) (O.taken out.new) (room_bytes column.old count)) }
    ensures prefix { TookPrefix (O.taken out.old) (O.taken out.new) (room_bytes column.old count) }
    ensures column { OnOk result (column.new ≡ room_column column.old count) }
    ensures counted { CountMoves (sink_failed result) (O.faults out.old) (O.faults out.new) }
{
    if *column > 0 && *column > MARGIN - count {
        write_all(out, b"\n")?;
        *column = 0;
    }
    Ok(())
}

// Prints a number as an item of the print line.
fn print_item<O: Sink>(x: Dec, column: &mut usize, out: &mut O) -> Result<(), SinkFail>
    ensures all { OnOk result (TookAll (O.taken out.old) (O.taken out.new) (item_bytes column.old (text_of x))) }
    ensures prefix { TookPrefix (O.taken out.old) (O.taken out.new) (item_bytes column.old (text_of x)) }
    ensures column { OnOk result (column.new ≡ item_column column.old (text_of x)) }
    ensures counted { CountMoves (sink_failed result) (O.faults out.old) (O.faults out.new) }
{
    let mut text = [0; 64];
    let count = x.print_into(&mut text);
    make_room(count, column, out)?;
    write_all(out, &text[..count])?;
    *column += count;
    Ok(())
}

fn turn_of(fail: SinkFail) -> Turn
    ensures { result ≡ turn_of fail }
{
    match fail {
        SinkFail::Failed => Turn::OutputFault,
        SinkFail::Memory => Turn::Memory,
    }
}

// Executes what prints a number.
fn print_number<O: Sink>(proc: &Proc, pc: usize, held: &mut Held, out: &mut O) -> Step
    ensures does { StepOf proc.now pc (Instr.Print (PrintInstr.PrintNum TERMINAL)) held.old held.new (O.taken out.old) (O.taken out.new) result }
    ensures left { held.new.left ≡ held.old.left }
    ensures near { goes_to result ≡ None }
    ensures counted { CountMoves (fails_output result) (O.faults out.old) (O.faults out.new) }
{
    let Some(x) = pop_number(&mut held.stack) else {
        return Step::Ends(Turn::Lost);
    };
    match print_item(x, &mut held.column, out) {
        Ok(()) => Step::Onward,
        Err(fail) => Step::Ends(turn_of(fail)),
    }
}

// Executes what ends the print line.
fn end_line<O: Sink>(proc: &Proc, pc: usize, held: &mut Held, out: &mut O) -> Step
    ensures does { StepOf proc.now pc (Instr.Print (PrintInstr.PrintEnd TERMINAL)) held.old held.new (O.taken out.old) (O.taken out.new) result }
    ensures left { held.new.left ≡ held.old.left }
    ensures near { goes_to result ≡ None }
    ensures counted { CountMoves (fails_output result) (O.faults out.old) (O.faults out.new) }
{
    match write_all(out, b"\n") {
        Ok(()) => {
            held.column = 0;
            Step::Onward
        }
        Err(fail) => Step::Ends(turn_of(fail)),
    }
}

/// Executes what prints.
pub fn print<O: Sink>(i: PrintInstr, proc: &Proc, pc: usize, held: &mut Held, out: &mut O) -> Step
    ensures does { StepOf proc.now pc (Instr.Print i) held.old held.new (O.taken out.old) (O.taken out.new) result }
    ensures left { held.new.left ≡ held.old.left }
    ensures near { goes_to result ≡ None }
    ensures counted { CountMoves (fails_output result) (O.faults out.old) (O.faults out.new) }
{
    match i {
        PrintInstr::PrintNum(channel) => {
            if channel == TERMINAL {
                print_number(proc, pc, held, out)
            } else {
                Step::Ends(Turn::Lost)
            }
        }
        PrintInstr::PrintEnd(channel) => {
            if channel == TERMINAL {
                end_line(proc, pc, held, out)
            } else {
                Step::Ends(Turn::Lost)
            }
        }
    }
}
