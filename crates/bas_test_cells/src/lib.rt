//! Tests of the live cells of a run: stores and reads through references.
//!
//! There is nothing here but tests: the library itself is empty.
#![tactic(auto)]

#[cfg(test)]
mod cells;
