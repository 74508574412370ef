//! The trees of source text: a type for each production of the line grammar, and blocks and units.
//!
//! An alternative of a production is a variant, and its parts are the fields in their order. The
//! trees are plain data: a contract sees a list where a field holds one, and the value where a
//! field holds a box. Beside them are the names of the supplied functions.
#![tactic(auto)]

mod block;
mod condition;
mod declaration;
mod expression;
pub mod laws;
mod part;
mod record_statement;
mod statement;
mod supplied;
mod unit;

pub use block::{Block, LineItem, NumLine, Section, Stmt};
pub use condition::{Cond, Conj, Rel, Test};
pub use declaration::{Bound, Decl, DeclaredItem, DeclaredKind, Items, ProcedureKind, TypeSpec};
pub use expression::{
    Actual, Args, Expr, Factor, FactorSign, Numeral, Primary, Sign, Target, Term, TermSign,
};
pub use part::{Case, Const, Formal, Formals, Loopc, Part};
pub use record_statement::{
    Access, Attr, Chan, Create, Miss, MissThen, MissWhen, Organization, Rectype, Setter,
};
pub use statement::{Branch, Pitem, Plain, Plist, Sep, Simple, Targets};
pub use supplied::is_supplied;
pub use unit::{Module, Procedure, Program, Unit};
