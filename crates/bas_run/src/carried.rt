ghost use Rattle.bas_world.specs.Count.{CountMoves};
ghost use Rattle.bas_vm.specs.Steps.{is_output_fault};
ghost use Rattle.bas_run.specs.Carried.{CarriedIsFit, DoesWhatIsMeant, IsSound};

use bas_carry::image_does_what_is_meant;
use bas_code::Image;
use bas_vm::{Turn, run};
use bas_world::Sink;
use std::alloc::Global;

/// The machine does not refuse an image that carries a list of units: its jumps go forward, or to
/// the mark of a line or of a loop.
#[tactic(auto, using(crate::proofs::Programs::carried_is_fit))]
pub fn carried_image_is_run()
    ensures { CarriedIsFit }
{}

/// Runs an image that carries a program, for a number of lines.
pub fn run_carried<O: Sink>(alloc: Global, image: &Image, lines: u64, out: &mut O) -> Turn
    // Whatever units the image carries: the answer tells the end that they mean, and the sink took
    // all the output that they mean; where the output failed or memory was wanting, the front of it.
    ensures means { DoesWhatIsMeant image.now lines (O.taken out.old) (O.taken out.new) result }

    // The machine neither refuses such an image nor loses its run.
    ensures sound { IsSound image.now result }

    // The fault of the output is answered exactly where its count rose.
    ensures counted { CountMoves (is_output_fault result) (O.faults out.old) (O.faults out.new) }
{
    image_does_what_is_meant();
    run(alloc, image, lines, out)
}
