//! The live cells of a run: variables and arrays with their values, and references into them.
//!
//! Contracts see `Cells` as the list of the live cells, each with its shape, its bounds and its plain
//! values (`specs/Live.antt`), and a `Ref` as a place in that list: a cell and one of its values. A
//! value is read and written in constant time, and an element is found in constant time. An array is
//! one block of at most 40 bytes for each element, and a string's own bytes stand beside it.
#![tactic(auto)]

mod bounds;
mod cells;
mod examples;
mod fault;
mod holding;
pub mod laws;
mod reference;
mod values;
mod variable;

pub use bounds::{FARTHEST_BOUND, MOST_DIMENSIONS, MOST_ELEMENTS};
pub use cells::Cells;
pub use examples::{worked_arrays, worked_references, worked_stores};
pub use fault::StoreFault;
pub use reference::Ref;
pub use std::alloc::AllocError as NoMemory;
