//! What is around a line of a body, and the tests on a line that ask it: where its jumps go, what its
//! exits leave, whether it stands in a handler, and which variables count the loops around it.
//!
//! A walk over a body holds an `Around` for each open block, which refers to the one outside of it:
//! entering a block allocates the set of its own counted lines, so a whole walk takes n log n, and leaving
//! one is letting go of its `Around`. A line is looked up in one set for each block around it.
//!
//! Promised: `Around` tells what the rules take to be around a line (`specs/Standing.antt`), from block to
//! block, and each test answers exactly as its rule does on a line in that place (`specs/Placing.antt`).
#![tactic(auto)]

mod around;
mod exit;
mod jump;
mod line;
mod lines;
mod statements;

pub use around::Around;
pub use exit::{chains_in_initial_part, exits_nothing, resumes_nothing};
pub use jump::{gosub_into_block, jumps_into_block};
pub use line::{is_counted, is_counter_of};
pub use lines::{counted_lines, counted_lines_with};
pub use statements::{miss_of, plains_on};
