//! The tokens of a line of BASIC.
//!
//! A line is cut from left to right. Each token is the longest at its place, a remark goes before a
//! word of equal length, and spaces are left out. `tokens` promises the one list of tokens, or the
//! first byte that is no space and begins no token, and nothing else but want of memory.
#![tactic(auto)]

mod cut;
mod law;
mod shape;
mod token;

pub use cut::tokens;
pub use law::tokens_in_order;
pub use token::{Token, TokenFault, TokenKind};
