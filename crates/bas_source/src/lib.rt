//! The logical lines of a source file, and the number that a line begins with.
//!
//! What a file's lines are stands in `specs/Lines.antt`: where lines end, which are skipped, and how
//! `&` joins two. `logical_lines` answers just these, in one pass over the bytes for each of its
//! three steps; `numbered` takes a line's number off.
#![tactic(auto)]

mod bytes;
mod examples;
mod join;
mod lines;
mod number;

pub use examples::{worked_files, worked_numbers};
pub use join::logical_lines;
pub use number::numbered;
