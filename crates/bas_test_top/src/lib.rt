//! The tests of the memory that stands for files and streams, of the folder, and of the one call that
//! the program makes, each over public calls.
//!
//! There is a module for each crate that is tested, and nothing but tests. What a fault of the outside
//! leads to is tried with each call failing in turn.
#![tactic(auto)]

#[cfg(test)]
mod drive;
#[cfg(test)]
mod folder;
#[cfg(test)]
mod programs;
#[cfg(test)]
mod world;
