//! The lines that open, divide and close constructs, procedures and units, and declarations, as trees.
//!
//! The grammar is a relation between a place among the tokens, a tree and the place after it, in
//! `specs/Parts.antt` and `specs/Declarations.antt`. `part` and `decl` answer what is in it, the longest
//! from the place, with the only tree that ends there, and nothing exactly where none begins.
#![tactic(auto)]

mod case;
mod declaration;
mod declared_item;
pub mod digits;
mod formal;
pub mod keyword;
mod law;
mod loop_line;
mod mark;
mod part_line;
mod unit_line;

pub use declaration::decl;
pub use law::{decl_law, part_law};
pub use part_line::part;
