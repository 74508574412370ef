//! The nesting of numbered lines: which lines are which units.
//!
//! Which lines are which trees stands in `specs/Units.antt`, over the roles of lines in
//! `specs/Constructs.antt`. `line_read` reads one line after the other, a file in time in proportion to its
//! lines: each is stored once, and a remark in front of a program without `PROGRAM` once more. `None` is
//! the answer at the first line that no nesting takes; the laws of `src/law.rt` join it to the relation.
#![tactic(auto)]

mod body;
mod construct;
mod ending;
mod law;
mod reader;
mod stack;
mod state;

pub use law::{nest_law, one_reading_law, refusal_law, unclosed_law};
pub use reader::{line_read, nothing_read, unclosed};
pub use state::{Open, Reading};

/// The most blocks that are open at a place.
pub const OPEN_BLOCKS: usize = 64;
