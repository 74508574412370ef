//! The tests of the crates from the checks of a program to its run, each over public calls.
//!
//! There is a module for each crate that is tested, and nothing but tests. All tests that hold the
//! tree of a program stand here, since each crate that drops one proves the dropping of every type of
//! a tree. A tree is read from text and never built by hand.
#![tactic(auto)]

#[cfg(test)]
mod accept;
#[cfg(test)]
mod execute;
#[cfg(test)]
mod generator;
#[cfg(test)]
mod genexpr;
#[cfg(test)]
mod image;
#[cfg(test)]
mod run;
#[cfg(test)]
mod text;
#[cfg(test)]
mod unbuilt;
#[cfg(test)]
mod vm;
