//! What follows from the relation and its reader.

ghost use Rattle.bas_nest.specs.Laws.{CanBeClosed, FirstRefused, NoneUnclosed, OneReading, ReadsUnits, RefusedForEver};

/// What is read of lines is what they are, and lines that are units are read as those units.
#[tactic(auto, using(crate::proofs::Joined::reads_units))]
pub fn nest_law()
    ensures { ReadsUnits }
{}

/// Lines are one list of units at most.
#[tactic(auto, using(crate::proofs::Joined::one_reading))]
pub fn one_reading_law()
    ensures { OneReading }
{}

/// A line that is not taken is the first that no nesting takes: no lines after it make units, and the
/// lines before it can go on to be units. So it is with the line whose number is answered for a whole file.
#[tactic(auto, using(crate::proofs::Joined::refused_for_ever, crate::proofs::Joined::closes_all, crate::proofs::Joined::first_refused))]
pub fn refusal_law()
    ensures refused { RefusedForEver }
    ensures closes { CanBeClosed }
    ensures first { FirstRefused }
{}

/// Lines behind which something is open are no units.
#[tactic(auto, using(crate::proofs::Joined::none_unclosed))]
pub fn unclosed_law()
    ensures { NoneUnclosed }
{}
