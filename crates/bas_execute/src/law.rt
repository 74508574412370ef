//! What follows for the meaning of sound programs.

ghost use Rattle.bas_execute.specs.Executed.{SoundIsNotLost};

/// A sound program ends, is stopped by an exception, or goes on, whatever the lines and the input: its
/// meaning is never lost.
#[tactic(auto, using(crate::proofs::Making::is_not_lost))]
pub fn sound_program_is_not_lost()
    ensures { SoundIsNotLost }
{}
