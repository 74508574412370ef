//! The body of a program: its code, its line table and the number of its slots.
#![tactic(auto)]

mod emit;
mod layout;
mod line;
mod names;
mod output;
mod program;
mod targets;

pub use program::generate;
