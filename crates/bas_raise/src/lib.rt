//! Which exceptions can stop a program, and where.
//!
//! Laws over the meaning of programs alone: however a list of units runs, an exception that stops it is
//! one of a short table, in the name of its first program and at one of that program's lines; and each
//! of the table does stop some program. No program calls them.
#![tactic(auto)]

mod law;

pub use law::{each_known_exception_can_come, stop_is_by_a_known_exception};
