//! Lines of data, from their bytes: the word `DATA`, and items up to the end of the line or to a `!`
//! outside quotes.
//!
//! The items are not cut into tokens. `data_word` tells whether a line is one of data, and `data` reads
//! what stands behind the word. `specs/Data.antt` says what they are.
#![tactic(auto)]

mod data_text;
mod law;

pub use data_text::{data, data_word};
pub use law::{data_law, word_law};
