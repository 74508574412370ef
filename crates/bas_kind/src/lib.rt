//! Numbers and strings: which of the two an expression is, and where the operands of an operator, the
//! parts of a statement and the constants of a `CASE` line have another kind than is wanted there.
//! Promised: each function answers exactly as the rules on kinds define it. An expression has the kind
//! of its last operator or of the operand that it is, so a question goes down to the next operator and
//! no farther, and asking each node of a tree once takes linear time.
#![tactic(auto)]

mod case;
mod expression;
mod line;
mod operator;
mod statement;

pub use case::has_bad_case;
pub use expression::is_number;
pub use line::item_agrees;
pub use operator::{expr_agrees, factor_agrees, target_agrees, term_agrees, test_agrees};
pub use statement::plain_agrees;
