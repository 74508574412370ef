//! The one call that does all that `fullbasic` does: the words of the command line, the store of
//! files, input, output and report in, and a status out.
//!
//! Its contract carries the promise of the product: what it answers, prints and reports is the
//! answer that specs/ gives for the words and the files, and each failure has its cause.
#![tactic(auto)]

mod ending;
mod file;
mod laws;
mod report;
mod run;
mod status;
mod top;
mod words;

pub use status::Status;
pub use top::basic_words;
