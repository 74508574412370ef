//! The lines that open, divide and close constructs and units.

use crate::condition::{Cond, Rel};
use crate::expression::{Expr, Numeral, Sign};
use bas_base::{Name, Seq};
use bas_text::StrVal;

/// A constant of a `CASE` line.
#[derive(Drop)]
pub enum Const {
    Numeral(Option<Sign>, Numeral),
    Quoted(StrVal),
}

/// What a `CASE` line takes.
#[derive(Drop)]
pub enum Case {
    Const(Const),
    /// `const TO const`
    To(Const, Const),
    /// `IS rel const`
    Is(Rel, Const),
}

/// A formal parameter.
#[derive(Clone, Copy, Debug)]
pub enum Formal {
    /// `name [ ( { , } ) ]`, with the number of dimensions, 0 where no parentheses are written.
    Name(Name, u32),
    /// `# digits`, with their number or 4,294,967,295 where that is less.
    Chan(u32),
}

/// `( formal { , formal } )`; none where the parentheses are not written.
#[derive(Drop)]
pub struct Formals {
    pub formals: Seq<Formal>,
}

/// The condition of a `DO` or `LOOP` line.
#[derive(Drop)]
pub enum Loopc {
    While(Cond),
    Until(Cond),
}

/// A line that opens, divides or closes a construct, a procedure or a unit.
#[derive(Drop)]
pub enum Part {
    If(Cond),
    Elseif(Cond),
    Else,
    EndIf,
    /// `FOR name = start TO limit [ STEP step ]`
    For {
        name: Name,
        start: Expr,
        limit: Expr,
        step: Option<Expr>,
    },
    Next(Name),
    Do(Option<Loopc>),
    Loop(Option<Loopc>),
    SelectCase(Expr),
    Case(Seq<Case>),
    CaseElse,
    EndSelect,
    WhenExceptionIn,
    Use,
    /// The handler's name.
    WhenExceptionUse(Name),
    EndWhen,
    Handler(Name),
    EndHandler,
    Sub(Name, Formals),
    Function(Name, Formals),
    ExternalSub(Name, Formals),
    ExternalFunction(Name, Formals),
    EndSub,
    EndFunction,
    /// `DEF name [ formals ] = expr`
    Def(Name, Formals, Expr),
    Program(Name, Formals),
    End,
    Module(Name),
    EndModule,
}
