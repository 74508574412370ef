//! Values: what expressions give, and what variables, records and replies hold.
//!
//! A value is a number or a string. Contracts see it as the plain `Value` of `specs/Value.antt`.
#![tactic(auto)]

pub mod laws;
mod value;

pub use value::{Kind, Value};
