//! The tests that the rules make at every expression, operand, target, relation and `CALL` on a line:
//! which of these rules is broken there, the least where there are several.
//!
//! Promised: `operands_fault` answers just the least rule of `specs/Operands.antt` that a node of the
//! line breaks, and `definition_fault` that of the one line in the body of a `DEF`. Each goes through its
//! line once, looks a name up a few times wherever it stands, and allocates nothing.
#![tactic(auto)]

mod alone;
mod arrays;
mod broken;
mod channel;
mod condition;
mod counts;
mod definition;
mod expression;
mod forms;
mod kinds;
mod law;
mod line;
mod list;
mod node;
mod passing;
mod sense;
mod shapes;
mod statement;

pub use broken::{first_broken, least};
pub use definition::definition_fault;
pub use law::faults_of_rows;
pub use line::operands_fault;
