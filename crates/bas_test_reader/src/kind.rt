//! What a line is read as, in words.

use crate::cases::check;
use bas_ast::{Decl, LineItem, Plain, Simple};
use bas_line::{LineFault, line_item};
use std::alloc::Global;
use std::process::Abort;

/// What a line is read as.
#[derive(Clone, Copy)]
pub struct Kind {
    /// The form of the line, or `none` where it has no item.
    pub form: &'static str,
    /// What the line is a whole one of: a part, a declaration or a statement.
    pub family: &'static str,
    /// Which statement the line is, or `none` where it is no statement that may stand in an `IF`.
    pub statement: &'static str,
}

fn statement_kind(plain: &Plain) -> &'static str {
    match plain {
        Plain::Goto(_) => "GOTO",
        Plain::Gosub(_) => "GOSUB",
        Plain::Input(Some(_), _) => "prompt",
        Plain::Input(None, _) => "no prompt",
        _ => "another",
    }
}

fn plain_kind(plain: &Plain) -> Kind {
    let (form, family) = match plain {
        Plain::Print(_) => ("print", "statement"),
        Plain::PrintUsing { .. } => ("using", "channel statement"),
        Plain::PrintChan(_, _)
        | Plain::InputChan(_, _, _)
        | Plain::LineInputChan(_, _, _)
        | Plain::Open(_, _, _)
        | Plain::Close(_)
        | Plain::SetPointer(_, _)
        | Plain::ReadChan(_, _, _, _)
        | Plain::Write(_, _, _, _)
        | Plain::Rewrite(_, _, _, _)
        | Plain::Delete(_, _, _) => ("plain", "channel statement"),
        _ => ("plain", "statement"),
    };
    Kind {
        form,
        family,
        statement: statement_kind(plain),
    }
}

fn simple_kind(simple: &Simple) -> Kind {
    let form = match simple {
        Simple::Plain(plain) => return plain_kind(plain),
        Simple::If(_, _, _) => "if",
        Simple::OnGoto(_, _, _) => "on goto",
        Simple::OnGosub(_, _, _) => "on gosub",
    };
    Kind {
        form,
        family: "compound",
        statement: "none",
    }
}

fn item_kind(item: &LineItem) -> Kind {
    let (form, family) = match item {
        LineItem::Simple(simple) => return simple_kind(simple.get()),
        LineItem::Nothing => ("nothing", "remark"),
        LineItem::Rem(_) => ("rem", "remark"),
        LineItem::Part(_) => ("part", "part"),
        LineItem::Decl(decl) => match decl.get() {
            Decl::Data(_) => ("decl", "data"),
            _ => ("decl", "declaration"),
        },
    };
    Kind {
        form,
        family,
        statement: "none",
    }
}

/// What stands on the line.
///
/// Errors: `NotItem` where nothing does that a line may have, and `Memory` where memory runs out.
pub fn item_of(alloc: Global, line: &[u8]) -> Result<LineItem, LineFault> {
    if line.len() > 4096 {
        return Err(LineFault::NotItem);
    }
    line_item(alloc, line)
}

/// What the line is read as.
pub fn kind_of(alloc: Global, line: &[u8]) -> Kind {
    match item_of(alloc, line) {
        Ok(item) => item_kind(&item),
        Err(LineFault::NotItem) => Kind {
            form: "none",
            family: "none",
            statement: "none",
        },
        Err(LineFault::Memory) => Kind {
            form: "no memory",
            family: "no memory",
            statement: "no memory",
        },
    }
}

/// Ends the test at a line that is of the family and should not be, or the other way round.
pub fn check_family(rt: &impl Abort, alloc: Global, family: &str, cases: &[(&str, bool)]) {
    for (line, wanted) in cases {
        let found = kind_of(alloc, line.as_bytes()).family == family;
        check(rt, line, found == *wanted);
    }
}
