//! What follows from the acceptance of a file.

ghost use Rattle.bas_accept.specs.Accepted.{AcceptedIsSound, TellsAccepted};

/// What is accepted is what the relation gives, both ways.
#[tactic(auto, using(crate::proofs::Accepting::tells_accepted))]
pub fn accepted_law()
    ensures { TellsAccepted }
{}

/// The program of an accepted file is sound.
pub fn sound_program_law()
    ensures { AcceptedIsSound }
{}
