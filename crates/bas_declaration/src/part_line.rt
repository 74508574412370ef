//! The line of a construct, a procedure or a unit that a word begins.

ghost use Rattle.std.specs.Prelude.{◌≡◌, IfOk};
ghost use Rattle.bas_declaration.specs.Reading.{part_at};

use crate::keyword::{Keyword, word_at};
use crate::loop_line::{
    do_line, else_line, elseif_line, end_line, for_line, handler_line, if_line, loop_line,
    module_line, next_line, select_line, use_line,
};
use crate::unit_line::{
    case_line, def_line, external_line, function_line, program_line, sub_line, when_line,
};
use bas_ast::Part;
use bas_expr::TokenLine;
use std::alloc::{AllocError, Global};

/// The longest part from a place on, and the place after it.
#[tactic(auto, unfolding(crate::specs::Reading::part_at, bas_form::specs::Reader::dispatched))]
pub fn part(
    alloc: Global,
    line: &TokenLine<'_>,
    at: usize,
) -> Result<Option<(Part, usize)>, AllocError>
    ensures { IfOk result (λ o. o ≡ part_at line.now at) }
{
    match word_at(line, at) {
        Some(Keyword::If) => if_line(alloc, line, at),
        Some(Keyword::Elseif) => elseif_line(alloc, line, at),
        Some(Keyword::Else) => Ok(else_line(line, at)),
        Some(Keyword::For) => for_line(alloc, line, at),
        Some(Keyword::Next) => Ok(next_line(line, at)),
        Some(Keyword::Do) => do_line(alloc, line, at),
        Some(Keyword::Loop) => loop_line(alloc, line, at),
        Some(Keyword::Select) => select_line(alloc, line, at),
        Some(Keyword::Case) => case_line(alloc, line, at),
        Some(Keyword::When) => Ok(when_line(line, at)),
        Some(Keyword::Use) => Ok(use_line(line, at)),
        Some(Keyword::Handler) => Ok(handler_line(line, at)),
        Some(Keyword::External) => external_line(alloc, line, at),
        Some(Keyword::Sub) => sub_line(alloc, line, at),
        Some(Keyword::Function) => function_line(alloc, line, at),
        Some(Keyword::Def) => def_line(alloc, line, at),
        Some(Keyword::Program) => program_line(alloc, line, at),
        Some(Keyword::Module) => Ok(module_line(line, at)),
        Some(Keyword::End) => Ok(end_line(line, at)),
        _ => Ok(None),
    }
}
