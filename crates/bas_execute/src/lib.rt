//! A program from its tree to what it prints: it is compiled and run for a number of lines.
//!
//! `execute` is generator and machine in one call. Its contract speaks of the meaning alone: the answer
//! and the output are those that the program means.
#![tactic(auto)]

mod law;
mod program;

pub use law::sound_program_is_not_lost;
pub use program::execute;
