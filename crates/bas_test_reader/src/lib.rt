//! Tests of what reads the text of a program: tokens, expressions and conditions, lines, and the units of a file.
//!
//! Each module tests the public calls of one crate, on worked examples whose expected values come from
//! the rules of the language. `kind` reads a line and tells what it is by a word; the modules of statements,
//! parts and lists ask it. `cases` ends a test at a case that does not hold. There is nothing here but tests:
//! the library itself is empty.
#![tactic(auto)]

#[cfg(test)]
mod ast;
#[cfg(test)]
mod block;
#[cfg(test)]
mod cases;
#[cfg(test)]
mod data;
#[cfg(test)]
mod declaration;
#[cfg(test)]
mod expr;
#[cfg(test)]
mod file;
#[cfg(test)]
mod kind;
#[cfg(test)]
mod line;
#[cfg(test)]
mod list;
#[cfg(test)]
mod nest;
#[cfg(test)]
mod record;
#[cfg(test)]
mod statement;
#[cfg(test)]
mod token;
