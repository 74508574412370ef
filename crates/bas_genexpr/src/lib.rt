//! The slots of a body, and the code of expressions and conditions.
//!
//! A slot is looked up by order and never by scan, a condition's jumps know their targets from sizes
//! that are found once, and each call takes time in proportion to the text that it is given.
#![tactic(auto)]

mod code;
mod condition;
mod expression;
mod fault;
mod listing;
mod names;
mod size;
mod sizes;
mod slots;

pub use code::Code;
pub use condition::{Aim, put_condition};
pub use expression::{place, put_expression};
pub use fault::GenFault;
pub use listing::condition_size;
pub use names::{number_condition, number_expression};
pub use size::{CODE_LIMIT, capped_sum, expression_size};
pub use sizes::Sizes;
pub use slots::{SLOT_LIMIT, Slots};
