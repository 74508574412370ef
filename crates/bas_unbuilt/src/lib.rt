//! Which files have built constructs alone, and the first line of one that has others.
//!
//! A line, its expressions and its conditions are looked at once each, and nothing is allocated.
#![tactic(auto)]

mod block;
mod condition;
mod expression;
mod law;
mod line;
mod name;
mod statement;
mod unit;

pub use condition::is_built_condition;
pub use expression::is_built_expression;
pub use law::line_tells_built;
pub use line::is_built_line;
pub use statement::is_built_statement;
pub use unit::unbuilt_line;
