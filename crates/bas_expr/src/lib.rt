//! Expressions and conditions: the longest that stands from a token of a line on, as a tree.
//!
//! The grammar is a relation between a place among the tokens, a tree and the place after it, in
//! `specs/Grammar.antt` and `specs/Conditions.antt`. `expr` and `cond` answer what is in it, the longest
//! from the place, with the only tree that ends there, and refuse exactly where nothing begins.
//! The readers of the other lines go over a `TokenLine`, the tokens of a line with their texts, and
//! take from it a `longest_expr` or a `longest_cond` at a place.
#![tactic(auto)]

mod bracket;
mod condition;
mod expression;
mod front;
mod law;
mod mark;
mod token_line;
mod word;

pub use condition::longest_cond;
pub use expression::longest_expr;
pub use front::{ExprFault, cond, expr};
pub use law::{condition_law, expression_law, tokens_lie};
pub use token_line::TokenLine;
pub use word::Connective;

/// The most parentheses that are open at a place, and one: how deep a whole line is read.
pub const LEVELS: usize = 65;
