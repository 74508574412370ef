//! The signs of the language.

ghost use Rattle.std.specs.Prelude.{◌≡◌};
ghost use Rattle.bas_expr.specs.Marks as marks;

use bas_ast::{FactorSign, Rel, Sign, TermSign};

/// A sign, by what it is for; two spellings of one relation are one.
#[derive(Clone, Copy, Debug, PartialEq, Eq)]
pub enum Mark {
    Plus,
    Minus,
    Asterisk,
    Slash,
    Caret,
    Ampersand,
    Opening,
    Closing,
    Comma,
    Semicolon,
    Colon,
    Hash,
    Equal,
    NotEqual,
    Less,
    Greater,
    AtMost,
    AtLeast,
}

fn one_byte(b: u8) -> Option<Mark>
    ensures { result ≡ marks.one_byte b }
{
    match b {
        b'+' => Some(Mark::Plus),
        b'-' => Some(Mark::Minus),
        b'*' => Some(Mark::Asterisk),
        b'/' => Some(Mark::Slash),
        b'^' => Some(Mark::Caret),
        b'&' => Some(Mark::Ampersand),
        b'(' => Some(Mark::Opening),
        b')' => Some(Mark::Closing),
        b',' => Some(Mark::Comma),
        b';' => Some(Mark::Semicolon),
        b':' => Some(Mark::Colon),
        b'#' => Some(Mark::Hash),
        b'=' => Some(Mark::Equal),
        b'<' => Some(Mark::Less),
        b'>' => Some(Mark::Greater),
        _ => None,
    }
}

fn two_bytes(a: u8, b: u8) -> Option<Mark>
    ensures { result ≡ marks.two_bytes a b }
{
    match (a, b) {
        (b'<', b'>') => Some(Mark::NotEqual),
        (b'>', b'<') => Some(Mark::NotEqual),
        (b'<', b'=') => Some(Mark::AtMost),
        (b'=', b'<') => Some(Mark::AtMost),
        (b'>', b'=') => Some(Mark::AtLeast),
        (b'=', b'>') => Some(Mark::AtLeast),
        _ => None,
    }
}

/// The mark that a sign's text spells.
pub fn mark_of_text(text: &[u8]) -> Option<Mark>
    ensures { result ≡ marks.mark_of_text text.now }
{
    match text {
        [a] => one_byte(*a),
        [a, b] => two_bytes(*a, *b),
        _ => None,
    }
}

impl Mark {
    /// Whether it is `(`.
    pub fn opening(self) -> Option<()>
        ensures { result ≡ marks.opening self }
    {
        match self {
            Mark::Opening => Some(()),
            _ => None,
        }
    }

    /// Whether it is `)`.
    pub fn closing(self) -> Option<()>
        ensures { result ≡ marks.closing self }
    {
        match self {
            Mark::Closing => Some(()),
            _ => None,
        }
    }

    /// Whether it is a comma.
    pub fn comma(self) -> Option<()>
        ensures { result ≡ marks.comma self }
    {
        match self {
            Mark::Comma => Some(()),
            _ => None,
        }
    }

    /// Whether it is a colon.
    pub fn colon(self) -> Option<()>
        ensures { result ≡ marks.colon self }
    {
        match self {
            Mark::Colon => Some(()),
            _ => None,
        }
    }

    /// Whether it is `#`.
    pub fn hash(self) -> Option<()>
        ensures { result ≡ marks.hash self }
    {
        match self {
            Mark::Hash => Some(()),
            _ => None,
        }
    }

    /// Whether it is `^`.
    pub fn caret(self) -> Option<()>
        ensures { result ≡ marks.caret self }
    {
        match self {
            Mark::Caret => Some(()),
            _ => None,
        }
    }

    /// The sign in front of an expression.
    pub fn sign(self) -> Option<Sign>
        ensures { result ≡ marks.sign_of self }
    {
        match self {
            Mark::Plus => Some(Sign::Plus),
            Mark::Minus => Some(Sign::Minus),
            _ => None,
        }
    }

    /// What stands between two terms.
    pub fn term_sign(self) -> Option<TermSign>
        ensures { result ≡ marks.term_sign_of self }
    {
        match self {
            Mark::Plus => Some(TermSign::Add),
            Mark::Minus => Some(TermSign::Subtract),
            Mark::Ampersand => Some(TermSign::Join),
            _ => None,
        }
    }

    /// What stands between two factors.
    pub fn factor_sign(self) -> Option<FactorSign>
        ensures { result ≡ marks.factor_sign_of self }
    {
        match self {
            Mark::Asterisk => Some(FactorSign::Multiply),
            Mark::Slash => Some(FactorSign::Divide),
            _ => None,
        }
    }

    /// What stands between two expressions that are compared.
    pub fn rel(self) -> Option<Rel>
        ensures { result ≡ marks.rel_of self }
    {
        match self {
            Mark::Equal => Some(Rel::Equal),
            Mark::NotEqual => Some(Rel::NotEqual),
            Mark::Less => Some(Rel::Less),
            Mark::Greater => Some(Rel::Greater),
            Mark::AtMost => Some(Rel::AtMost),
            Mark::AtLeast => Some(Rel::AtLeast),
            _ => None,
        }
    }
}
