ghost use Rattle.std.specs.Prelude.{◌≡◌, ℕ, List, true, false, IfOk};
ghost use Rattle.bas_mean.specs.Outcome.{RunEnd};
ghost use Rattle.bas_code.specs.Machine.{Runs};
ghost use Rattle.bas_world.specs.Count.{CountMoves};
ghost use Rattle.bas_vm.specs.Steps.{is_output_fault};
ghost use Rattle.bas_vm.specs.Fit.{is_fit, is_fit_image};
ghost use Rattle.bas_vm.specs.Runs.{RunOf, IsStart, ProgramOf, Answers};

use crate::body::run_body;
use crate::cells::fresh_cells;
use crate::fitness::is_fit;
use crate::held::Held;
use crate::turn::Turn;
use bas_code::{Image, Proc};
use bas_world::Sink;
use std::alloc::{AllocError, Global};

// What a program with that many slots holds as it begins.
fn held_at_start(alloc: Global, slots: u16, lines: u64) -> Result<Held, AllocError>
    ensures { IfOk result (λ held. IsStart slots lines held) }
{
    Ok(Held {
        stack: Vec::new(alloc),
        cells: fresh_cells(alloc, slots)?,
        column: 0,
        left: lines,
    })
}

// Runs the program in a body.
fn run_program<O: Sink>(alloc: Global, proc: &Proc, lines: u64, out: &mut O) -> Turn
    requires { is_fit proc.now ≡ true }
    ensures does { ProgramOf proc.now lines (O.taken out.old) (O.taken out.new) result }
    ensures counted { CountMoves (is_output_fault result) (O.faults out.old) (O.faults out.new) }
{
    match held_at_start(alloc, proc.slots, lines) {
        Ok(mut held) => run_body(proc, &mut held, out),
        Err(_) => Turn::Memory,
    }
}

// Runs the first program of an image.
fn run_first<O: Sink>(alloc: Global, image: &Image, lines: u64, out: &mut O) -> Turn
    ensures does { RunOf image.now lines (O.taken out.old) (O.taken out.new) result }
    ensures refused { is_fit_image image.now ≡ false → result ≡ Turn.Refused }
    ensures counted { CountMoves (is_output_fault result) (O.faults out.old) (O.faults out.new) }
{
    let Some((_, body)) = image.programs.items().first() else {
        return Turn::Lost;
    };
    let Some(proc) = image.procs.items().get(usize::from(*body)) else {
        return Turn::Lost;
    };
    if !is_fit(proc) {
        return Turn::Refused;
    }
    run_program(alloc, proc, lines, out)
}

/// Runs the first program of an image for a number of lines. An instruction takes constant time, and
/// neither code nor cells are copied. What is printed is written to the sink at once.
pub fn run<O: Sink>(alloc: Global, image: &Image, lines: u64, out: &mut O) -> Turn
    // The answer tells an end to which the image runs, and the sink took its whole output. Where the
    // output failed or memory was wanting, the sink took the front of the output of any such end.
    // `Refused` is only for an image that is not run, and then nothing is printed.
    ensures does { RunOf image.now lines (O.taken out.old) (O.taken out.new) result }
    ensures refused { is_fit_image image.now ≡ false → result ≡ Turn.Refused }

    // The same of every end to which the image runs.
    ensures only { (input : List ℕ) (e : RunEnd) → Runs image.now lines input e →
        Answers (O.taken out.old) (O.taken out.new) result e }

    // The fault of the output is answered exactly where its count rose.
    ensures counted { CountMoves (is_output_fault result) (O.faults out.old) (O.faults out.new) }
{
    run_first(alloc, image, lines, out)
}
