//! Statements of one line.

use crate::condition::Cond;
use crate::expression::{Args, Expr, Target};
use crate::record_statement::{Attr, Chan, Miss, Setter};
use bas_base::{Line, Name, Seq};
use sqlite_items::Boxed;

/// `target { , target }`
#[derive(Drop)]
pub struct Targets {
    pub targets: Seq<Target>,
}

/// What stands between two items of a list.
#[derive(Clone, Copy, Debug, PartialEq, Eq)]
pub enum Sep {
    Comma,
    Semicolon,
}

/// An item of a print list.
#[derive(Drop)]
pub enum Pitem {
    Expr(Expr),
    /// `TAB ( expr )`
    Tab(Expr),
}

/// `[ pitem ] { sep [ pitem ] }`
#[derive(Drop)]
pub struct Plist {
    pub first: Option<Pitem>,
    pub rest: Seq<(Sep, Option<Pitem>)>,
}

/// A statement that may stand in a one-line `IF`.
#[derive(Drop)]
pub enum Plain {
    /// The targets and the value.
    Let(Targets, Expr),
    Print(Plist),
    /// `PRINT chan [ : plist ]`
    PrintChan(Chan, Option<Plist>),
    /// `PRINT [ chan , ] USING format : first { sep expr } [ ; ]`
    PrintUsing {
        chan: Option<Chan>,
        format: Expr,
        first: Expr,
        rest: Seq<(Sep, Expr)>,
        /// Whether a `;` stands at the end.
        semicolon: bool,
    },
    /// `INPUT [ PROMPT expr : ] targets`
    Input(Option<Expr>, Targets),
    /// `LINE INPUT [ PROMPT expr : ] targets`
    LineInput(Option<Expr>, Targets),
    InputChan(Chan, Option<Miss>, Targets),
    LineInputChan(Chan, Option<Miss>, Targets),
    Read(Targets),
    Restore(Option<Line>),
    Goto(Line),
    Gosub(Line),
    Return,
    Stop,
    ExitDo,
    ExitFor,
    ExitSub,
    ExitFunction,
    ExitHandler,
    Call(Name, Args),
    Retry,
    Continue,
    CauseException(Expr),
    /// The program's name and the values, none where `WITH` is not written.
    Chain(Expr, Seq<Expr>),
    /// The channel, the file's name and the attributes.
    Open(Chan, Expr, Seq<Attr>),
    Close(Chan),
    /// `SET chan : POINTER setter`
    SetPointer(Chan, Setter),
    ReadChan(Chan, Option<Setter>, Option<Miss>, Targets),
    Write(Chan, Option<Setter>, Option<Miss>, Seq<Expr>),
    Rewrite(Chan, Option<Setter>, Option<Miss>, Seq<Expr>),
    Delete(Chan, Option<Setter>, Option<Miss>),
}

/// A part of a one-line `IF`: `number | plain`
#[derive(Drop)]
pub enum Branch {
    Number(Line),
    Plain(Boxed<Plain>),
}

/// A statement.
#[derive(Drop)]
pub enum Simple {
    Plain(Plain),
    /// `IF cond THEN branch [ ELSE branch ]`
    If(Cond, Branch, Option<Branch>),
    /// `ON expr GOTO number { , number } [ ELSE plain ]`
    OnGoto(Expr, Seq<Line>, Option<Boxed<Plain>>),
    /// `ON expr GOSUB number { , number } [ ELSE plain ]`
    OnGosub(Expr, Seq<Line>, Option<Boxed<Plain>>),
}
