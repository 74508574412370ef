//! One program, compiled and run.

ghost use Rattle.std.specs.Prelude.{◌≡◌, ℕ, IfOk, IfErr};
ghost use Rattle.bas_ast.specs.UnitTree.{program_tree};
ghost use Rattle.bas_gen.specs.Generated.{IsRefused, IsWithin};
ghost use Rattle.bas_vm.specs.Steps.{is_output_fault};
ghost use Rattle.bas_world.specs.Count.{CountMoves};
ghost use Rattle.bas_execute.specs.Executed.{DoesWhatItMeans, IsWhole, image_of};

use bas_ast::Program;
use bas_base::{Name, Seq};
use bas_code::{Image, Proc, PushInstr};
use bas_gen::generate;
use bas_genexpr::GenFault;
use bas_run::run_carried;
use bas_vm::Turn;
use bas_world::Sink;
use std::alloc::{AllocError, Global};

// The image of one program.
fn image_of(alloc: Global, name: Name, proc: Proc) -> Result<Image, AllocError>
    ensures { IfOk result (λ image. image ≡ image_of name proc) }
{
    let _named: Option<PushInstr> = None;
    let mut programs = Vec::new(alloc);
    programs.push((name, 0))?;
    let mut procs = Vec::new(alloc);
    procs.push(proc)?;
    Ok(Image {
        programs: Seq::of(programs),
        procs: Seq::of(procs),
    })
}

/// Compiles a program and runs it for a number of lines. Compiling takes time in proportion to the
/// program, and each instruction constant time.
#[tactic(auto, using(crate::proofs::Making::made_carries))]
pub fn execute<O: Sink>(
    alloc: Global,
    program: &Program,
    lines: u64,
    out: &mut O,
) -> Result<Turn, GenFault>
    // The answer and the output are those that a sound program means, whatever the input; where the
    // output failed or memory was wanting, the output is the front of that. The run is never lost.
    ensures means { IfOk result (λ turn. DoesWhatItMeans (program_tree program.now) lines (O.taken out.old) (O.taken out.new) turn) }
    ensures whole { IfOk result (λ turn. IsWhole (program_tree program.now) turn) }

    // Without memory aside, it is refused exactly where a count passes its limit, and then nothing
    // is printed.
    ensures within { IfOk result (λ _. IsWithin (program_tree program.now)) }
    ensures refused { IfErr result (λ fault. IsRefused fault (program_tree program.now)) }
    ensures kept { IfErr result (λ _. (O.taken out.new ≡ O.taken out.old) × (O.faults out.new ≡ O.faults out.old)) }

    // The fault of the output is answered exactly where its count rose.
    ensures counted { IfOk result (λ turn. CountMoves (is_output_fault turn) (O.faults out.old) (O.faults out.new)) }
{
    let proc = generate(alloc, program)?;
    let image = image_of(alloc, program.name, proc)?;
    Ok(run_carried(alloc, &image, lines, out))
}
