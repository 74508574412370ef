//! What the first line that is not built tells of a file.

ghost use Rattle.bas_unbuilt.specs.Unbuilt.{TellsBuilt};

/// A file of one or more units has no line that is not built exactly where it is built.
#[tactic(auto, using(crate::proofs::Telling::tells_built))]
pub fn line_tells_built()
    ensures { TellsBuilt }
{}
