//! The outside of a program on the system: the current folder as a store of files, and a stream of
//! bytes as a source of input or a sink of output.
//!
//! They fail exactly where their count of faults rises, and tell no content: no contract says what a
//! folder holds, what a stream gives or what it has taken.
#![tactic(auto)]

mod files;
mod folder;
mod streams;

pub use folder::Folder;
pub use streams::{StreamSink, StreamSource};
