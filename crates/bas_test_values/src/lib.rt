//! Tests of the values that every layer works on: names and line numbers, decimal numbers, strings
//! and items of data, print lines, and the lines of a source file.
//!
//! Each module tests the public calls of one crate, on worked examples whose expected values come from
//! the rules of the language. `cases` ends a test at a case that does not hold. There is nothing here but
//! tests: the library itself is empty.
#![tactic(auto)]

#[cfg(test)]
mod base;
#[cfg(test)]
mod cases;
#[cfg(test)]
mod console;
#[cfg(test)]
mod dec;
#[cfg(test)]
mod source;
#[cfg(test)]
mod strings;
#[cfg(test)]
mod text;
