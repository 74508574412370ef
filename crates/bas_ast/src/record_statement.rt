//! Parts of the statements on channels and records.

use crate::expression::Expr;
use bas_base::Line;

/// `# expr`
#[derive(Drop)]
pub struct Chan {
    pub number: Expr,
}

/// Where a statement sets the pointer of a file.
#[derive(Drop)]
pub enum Setter {
    Begin,
    End,
    Next,
    Same,
    Record(Expr),
    /// `KEY = expr`
    KeyEq(Expr),
    /// `KEY >= expr`
    KeyGe(Expr),
    /// `KEY > expr`
    KeyGt(Expr),
}

/// What `IF MISSING` or `IF THERE` waits for.
#[derive(Clone, Copy, Debug, PartialEq, Eq)]
pub enum MissWhen {
    Missing,
    There,
}

/// Where `IF MISSING` or `IF THERE` goes.
#[derive(Clone, Copy, Debug)]
pub enum MissThen {
    ExitDo,
    ExitFor,
    Number(Line),
}

/// `IF ( MISSING | THERE ) THEN ( EXIT DO | EXIT FOR | number )`
#[derive(Clone, Copy, Debug)]
pub struct Miss {
    pub when: MissWhen,
    pub goes: MissThen,
}

/// How the values of a file stand in it.
#[derive(Clone, Copy, Debug, PartialEq, Eq)]
pub enum Organization {
    Stream,
    Sequential,
    Relative,
    Keyed,
}

/// Whether a file has text or values.
#[derive(Clone, Copy, Debug, PartialEq, Eq)]
pub enum Rectype {
    Display,
    Internal,
}

/// Whether a file is read, written or both.
#[derive(Clone, Copy, Debug, PartialEq, Eq)]
pub enum Access {
    Input,
    Output,
    Outin,
}

/// Whether a file must be new or old.
#[derive(Clone, Copy, Debug, PartialEq, Eq)]
pub enum Create {
    New,
    Old,
    Newold,
}

/// An attribute of `OPEN`.
#[derive(Clone, Copy, Debug, PartialEq, Eq)]
pub enum Attr {
    Organization(Organization),
    Rectype(Rectype),
    Access(Access),
    Create(Create),
    /// `RECSIZE digits`, with their number or 4,294,967,295 where that is less.
    Recsize(u32),
}
