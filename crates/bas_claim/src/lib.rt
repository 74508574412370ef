//! Which names the lines of a body declare, and where each name stands first.
//!
//! Promised: a table of first lines tells of each name whether it stands at a line, and whether at one
//! before a given line (`specs/First.antt`), in time of the logarithm of its names; what a body does
//! not take as a declaration, and names that stand twice, are told as the rules define it.
#![tactic(auto)]

mod clash;
mod first;
mod heading;
mod law;
mod tables;
mod twice;

pub use clash::{is_any_before, is_any_refused};
pub use first::FirstLines;
pub use heading::{Heading, names_of_heading};
pub use law::claims_are_refused;
pub use tables::{first_claims, first_handlers, names_of};
pub use twice::has_twice;
