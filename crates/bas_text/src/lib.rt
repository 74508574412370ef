//! Byte strings and lists of data.
//!
//! A `StrVal` is a string of BASIC: at most 65,535 bytes of any value. Contracts see the list of
//! its bytes, and say what each operation gives by a function on such lists (`specs/Strings.antt`).
//! Places in a string are counted from 1. `data_items` reads the items of a list of data, between
//! commas, with and without quotes. Each call promises exactly what comes out and exactly when it
//! refuses, save want of memory, and takes time in proportion to its operands and its result.
#![tactic(auto)]

mod byte_string;
mod data_list;
mod examples;
pub mod laws;
mod operations;

pub use byte_string::{MAX_STRING_LEN, StrVal, TextFault};
pub use data_list::{Datum, data_items, quoted_string};
pub use examples::{worked_parts, worked_positions, worked_strings};
pub use std::alloc::AllocError as NoMemory;
