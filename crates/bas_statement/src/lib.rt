//! Statements of one line that name no channel, from tokens to trees.
//!
//! The grammar is a relation between a place among the tokens, a tree and the place after it, in
//! `specs/Statements.antt`. `statement` answers what is in it, the longest from the place, with the only
//! tree that ends there, and nothing exactly where none begins.
#![tactic(auto)]

mod call;
mod input;
mod jump;
mod law;
mod plain;
mod value;
pub mod verb;

pub use law::{statement_ends_law, statement_law};
pub use plain::statement;
