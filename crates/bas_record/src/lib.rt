//! Statements of one line that name a channel, and `PRINT USING`, as trees.
//!
//! The grammar is a relation between a place among the tokens, a tree and the place after it, in
//! `specs/Channels.antt` and `specs/Records.antt`. `record_statement` answers what is in it, the longest
//! from the place, with the only tree that ends there, and nothing exactly where none begins.
#![tactic(auto)]

mod attribute;
mod channel;
mod law;
mod miss;
mod print;
mod statement;
mod word;

pub use law::record_statement_law;
pub use statement::record_statement;
