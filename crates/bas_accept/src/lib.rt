//! From the bytes of a source file to the units that may be compiled, or the first reason why not.
//!
//! `specs/Accepted.antt` says which files are accepted: those that have units, all of whose constructs
//! are built, and which keep the rules of a unit. `accepted` answers just that, and the program in what
//! it answers is sound, so that all that is promised of sound programs holds of it.
#![tactic(auto)]

mod acceptance;
mod law;

pub use acceptance::{Refusal, accepted, first_program};
pub use law::{accepted_law, sound_program_law};
