//! The statement that a word begins.

ghost use Rattle.std.specs.Prelude.{◌≡◌, IfOk};
ghost use Rattle.bas_statement.specs.Reading.{statement_at};

use crate::call::call_statement;
use crate::input::{input_statement, line_input_statement, read_statement};
use crate::jump::{
    alone, exit_statement, go_statement, gosub_statement, goto_statement, restore_statement,
};
use crate::value::{cause_statement, chain_statement, let_statement, print_statement};
use crate::verb::{Verb, verb_at};
use bas_ast::Plain;
use bas_expr::TokenLine;
use std::alloc::{AllocError, Global};

/// The longest statement from a place on, and the place after it.
#[tactic(auto, unfolding(crate::specs::Reading::statement_at, bas_form::specs::Reader::dispatched))]
pub fn statement(
    alloc: Global,
    line: &TokenLine<'_>,
    at: usize,
) -> Result<Option<(Plain, usize)>, AllocError>
    ensures { IfOk result (λ o. o ≡ statement_at line.now at) }
{
    match verb_at(line, at) {
        Some(Verb::Let) => let_statement(alloc, line, at),
        Some(Verb::Print) => print_statement(alloc, line, at),
        Some(Verb::Line) => line_input_statement(alloc, line, at),
        Some(Verb::Input) => input_statement(alloc, line, at),
        Some(Verb::Read) => read_statement(alloc, line, at),
        Some(Verb::Restore) => Ok(restore_statement(line, at)),
        Some(Verb::Goto) => Ok(goto_statement(line, at)),
        Some(Verb::Gosub) => Ok(gosub_statement(line, at)),
        Some(Verb::Go) => Ok(go_statement(line, at)),
        Some(Verb::Return) => Ok(alone(line, at, Plain::Return)),
        Some(Verb::Stop) => Ok(alone(line, at, Plain::Stop)),
        Some(Verb::Exit) => Ok(exit_statement(line, at)),
        Some(Verb::Call) => call_statement(alloc, line, at),
        Some(Verb::Retry) => Ok(alone(line, at, Plain::Retry)),
        Some(Verb::Continue) => Ok(alone(line, at, Plain::Continue)),
        Some(Verb::Cause) => cause_statement(alloc, line, at),
        Some(Verb::Chain) => chain_statement(alloc, line, at),
        None => Ok(None),
    }
}
