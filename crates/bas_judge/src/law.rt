//! The least rule that is broken at the places of a line.

ghost use Rattle.bas_judge.specs.Rows.{FaultsOfPlaces};

/// A line breaks the lesser of what it breaks as a whole and what its operands break, and one with two
/// places the lesser of what it breaks at each.
#[tactic(auto, using(crate::proofs::Parting::faults_of_places))]
pub fn faults_of_places()
    ensures { FaultsOfPlaces }
{}
