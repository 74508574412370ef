//! The machine: it runs an image for a number of lines, prints to a sink, and tells how the run
//! ended. It meets the definition of `bas_code`: one function for each group of rows of the table,
//! and a loop over them.
//!
//! An image is run where the body of its program has no `WHEN` block, and each of its jumps goes
//! forward or to the mark of a line. So a run ends: between two marks it only goes forward, and each
//! mark takes one of the lines left.
#![tactic(auto)]

mod arith;
mod body;
mod cells;
mod compare;
mod finish;
mod fitness;
mod held;
mod jump;
mod mark;
mod operand;
mod perform;
mod print;
mod push;
mod stop;
mod store;
mod top;
mod turn;
mod write;

pub use fitness::is_fit;
pub use top::run;
pub use turn::Turn;
pub use write::write_all;
