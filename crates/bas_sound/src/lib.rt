//! When a program that was read from a file is sound, so that all that is promised of sound programs
//! holds of it: its constructs are built, its jumps go where they may, and the numbers of the file's
//! lines rise.
#![tactic(auto)]

ghost use Rattle.bas_sound.specs.Rising.{ProgramsAreSound};

/// The numbers in a program's tree rise where those of its lines do, whatever remarks its body leaves
/// out; with built constructs and right jumps the program is sound.
#[tactic(auto, using(crate::proofs::Rising::is_sound))]
pub fn sound_law()
    ensures { ProgramsAreSound }
{}
