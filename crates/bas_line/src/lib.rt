//! Whole lines, without their numbers, as trees.
//!
//! `specs/Items.antt` says which tree a line is, and reads like the grammar. `line_item` answers it, and
//! refuses exactly the lines that are none.
#![tactic(auto)]

mod jump;
mod law;
mod plain;
mod simple;
mod whole_line;
mod word;

pub use law::{item_law, one_item_law};
pub use whole_line::{LineFault, line_item};
