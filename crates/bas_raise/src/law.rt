//! What can stop a program.

ghost use Rattle.bas_raise.specs.Raised.{StopsAreKnown, EachCanCome};

/// Whatever the units, the number of lines and the input: an exception that stops the run is one of the
/// table, and it is told with the name of the first program and a line of that program.
#[tactic(auto, using(crate::proofs::Whole::stops_are_known))]
pub fn stop_is_by_a_known_exception()
    ensures { StopsAreKnown }
{}

/// Each exception of the table stops some program of built constructs.
#[tactic(auto, using(crate::proofs::Samples::each_can_come))]
pub fn each_known_exception_can_come()
    ensures { EachCanCome }
{}
