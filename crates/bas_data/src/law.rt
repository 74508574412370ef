//! What the readers of lines of data have to do with their forms.

ghost use Rattle.bas_data.specs.Laws.{DataLaw, WordLaw};

/// The word `DATA` is read exactly where a line begins with it.
#[tactic(auto, using(crate::proofs::WordLaws::word_law))]
pub fn word_law()
    ensures { WordLaw }
{}

/// The data that are read are the only ones that stand there.
#[tactic(auto, using(crate::proofs::DataLaws::data_law))]
pub fn data_law()
    ensures { DataLaw }
{}
