//! The print line: where the items, commas and `TAB`s of a print list stand.
//!
//! A `PrintLine` has a margin and a column, the number of bytes on the line. Each call appends to
//! the output exactly the bytes that `specs/Layout.antt` has for it, and leaves the column after
//! them. It takes time in proportion to what it appends.
#![tactic(auto)]

mod examples;
pub mod laws;
mod line;

pub use examples::{worked_commas, worked_items, worked_tabs};
pub use line::PrintLine;
pub use std::alloc::AllocError as NoMemory;
