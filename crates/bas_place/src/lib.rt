//! What the tests of a line ask of its place: of its unit as a whole, of its body and the bodies around
//! it, and of the blocks around it.
//!
//! Promised: what is kept of a unit, of a body and of a family is what the definitions say of it
//! (`specs/Standing.antt`), made once in time n log n.
#![tactic(auto)]

mod body;
mod place;
mod unit;
mod uses;

pub use body::{body_facts, definition_facts};
pub use place::{BodyFacts, Place, UnitFacts};
pub use unit::unit_facts;
pub use uses::first_uses;
