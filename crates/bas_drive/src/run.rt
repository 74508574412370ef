//! From an accepted program to the ending of the command that runs it.

ghost use Rattle.std.specs.Prelude.{◌≡◌, ◌∷◌, ℕ, List, [], map, false};
ghost use Rattle.bas_ast.specs.Tree.{ProgramUnit};
ghost use Rattle.bas_ast.specs.UnitTree.{program_tree, unit_tree};
ghost use Rattle.bas_mean.specs.Meaning.{first_program, mean};
ghost use Rattle.bas_carry.specs.Tables.{Sound};
ghost use Rattle.bas_accept.specs.Accepted.{HasSoundProgram};
ghost use Rattle.bas_world.specs.Count.{CountMoves};
ghost use Rattle.bas_drive.specs.Answer.{body_answer, program_answer, run_answer};
ghost use Rattle.bas_drive.specs.Ending.{RunOf, is_output_fault, is_store_fault, turn_ending};

use crate::ending::Ending;
use bas_accept::{Refusal, first_program};
use bas_ast::{Program, Unit};
use bas_base::FileName;
use bas_block::SourceFault;
use bas_execute::{execute, sound_program_is_not_lost};
use bas_genexpr::GenFault;
use bas_vm::Turn;
use bas_world::Sink;
use std::alloc::Global;

// The ending for the machine's answer. The machine neither refuses nor loses an accepted program.
fn turn_ending(turn: Turn) -> Ending
    ensures { result ≡ turn_ending turn }
{
    match turn {
        Turn::Ended | Turn::Lost | Turn::Refused => Ending::Ended,
        Turn::Stopped(at) => Ending::Stopped(at),
        Turn::LinesSpent => Ending::LinesSpent,
        Turn::OutputFault => Ending::OutputFault,
        Turn::Memory => Ending::Memory,
    }
}

// Compiles a program and runs it for a number of lines.
fn run_program<O: Sink>(alloc: Global, program: &Program, lines: u64, out: &mut O) -> Ending
    requires { Sound (program_tree program.now) }
    ensures does { (input : List ℕ) → RunOf (body_answer (program_tree program.now) (run_answer (mean (ProgramUnit (program_tree program.now) ∷ []) lines input))) (O.taken out.old) (O.taken out.new) result }
    ensures counted { CountMoves (is_output_fault result) (O.faults out.old) (O.faults out.new) }
    ensures store { is_store_fault result ≡ false }
{
    sound_program_is_not_lost();
    match execute(alloc, program, lines, out) {
        Ok(turn) => turn_ending(turn),
        Err(GenFault::TooLarge { size, limit }) => Ending::UnitTooLarge(program.name, size, limit),
        Err(GenFault::Memory) => Ending::Memory,
    }
}

/// Runs the program of accepted units for a number of lines.
pub fn run_units<O: Sink>(
    alloc: Global,
    name: FileName,
    units: &[Unit],
    lines: u64,
    out: &mut O,
) -> Ending
    requires { HasSoundProgram (map unit_tree units.now) }
    ensures does { (input : List ℕ) → RunOf (program_answer name (map unit_tree units.now) lines input (first_program (map unit_tree units.now))) (O.taken out.old) (O.taken out.new) result }
    ensures counted { CountMoves (is_output_fault result) (O.faults out.old) (O.faults out.new) }
    ensures store { is_store_fault result ≡ false }
{
    match first_program(units) {
        Some(program) => run_program(alloc, program, lines, out),
        // The definition has this case too, but no accepted file has it.
        None => Ending::Refused(name, Refusal::Source(SourceFault::NoUnit)),
    }
}
