//! What follows from the reading of files.

ghost use Rattle.bas_block.specs.Files.{AllFilesAreRead, BadNestEndsAll, FilesAreRead, OneList};

/// What is answered for a file is what the relation gives it, both ways.
#[tactic(auto, using(crate::proofs::FileLaws::files_are_read))]
pub fn file_law()
    ensures sound { FilesAreRead }
    ensures whole { AllFilesAreRead }
{}

/// A file has one list of units at most.
pub fn one_file_law()
    ensures { OneList }
{}

/// The line of a `BadNest` is the first after which no file has units, whatever lines follow it.
pub fn bad_nest_law()
    ensures { BadNestEndsAll }
{}
