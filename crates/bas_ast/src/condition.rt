//! Conditions.

use crate::expression::Expr;
use sqlite_items::{Boxed, Items};

/// A relation between two values. `<>` is also written `><`, `<=` also `=<`, and `>=` also `=>`.
#[derive(Clone, Copy, Debug, PartialEq, Eq)]
pub enum Rel {
    Equal,
    NotEqual,
    Less,
    Greater,
    AtMost,
    AtLeast,
}

/// `conj { OR conj }`
#[cycle(condition)]
#[derive(Drop)]
pub struct Cond {
    pub first: Conj,
    pub rest: Items<Conj>,
}

/// `test { AND test }`
#[cycle(condition)]
#[derive(Drop)]
pub struct Conj {
    pub first: Test,
    pub rest: Items<Test>,
}

/// What `AND` and `OR` join.
#[cycle(condition)]
#[derive(Drop)]
pub enum Test {
    Not(Boxed<Test>),
    /// `( cond )`
    Group(Boxed<Cond>),
    /// `expr rel expr`
    Compare(Expr, Rel, Expr),
}
