//! The lists that statements share: targets, values and print lists, from tokens to trees, and line numbers.
//!
//! The grammar is a relation between a place among the tokens, a tree and the place after it, in
//! `specs/Lists.antt`. `targets`, `values` and `print_list` answer what is in it, the longest from the
//! place, with the only tree that ends there, and nothing exactly where none begins.
#![tactic(auto)]

mod law;
mod print_item;
mod target;
mod value;
pub mod word;

pub use law::{enclosed_values_law, ends_law, print_list_law, targets_law, values_law};
pub use print_item::print_list;
pub use target::targets;
pub use value::{enclosed_values, values};

/// The most parentheses that are open at a place inside a pair of them, and one.
pub const INNER_LEVELS: usize = 64;
