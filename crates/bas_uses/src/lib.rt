//! The names that a line uses without arguments: as variables, or as functions that take none.
//! Promised: `names_on` answers exactly those of the definition of bodies, in the order of the text, as
//! often as each is used, and `names_in_definition` those of the one line in the body of a `DEF`. One walk over the trees of the line appends them to one vector, so it takes
//! linear time; `specs/Uses.antt` says what each part of the walk appends.
#![tactic(auto)]

mod condition;
mod expression;
mod line;
mod printed;
mod record;
mod statement;

pub use line::{names_in_definition, names_on};
