//! The units of a source file.
//!
//! `specs/Files.antt` says which units a file has, and what its first fault is: each logical line in turn,
//! and then the nesting. `units_of` answers just that.
#![tactic(auto)]

mod file;
mod law;

pub use file::{SourceFault, units_of};
pub use law::{bad_nest_law, file_law, one_file_law};

/// The most bytes of a logical line, its number and its spaces among them.
pub const LINE_BYTES: usize = 4096;
