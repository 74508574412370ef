//! What every layer names: line numbers, names, file names, exceptions, and lists that contracts
//! see as lists.
//!
//! Each constructor accepts exactly the values of the language's rule and refuses all others, and
//! the accessor gives the value back: a name in capitals, every other value as it was.
#![tactic(auto)]

mod examples;
mod exception;
mod file_name;
mod line;
mod name;
mod seq;
mod text;

pub use examples::{worked_file_names, worked_names};
pub use exception::{Ex, ExAt};
pub use file_name::{BadName, FileName};
pub use line::Line;
pub use name::Name;
pub use seq::Seq;
