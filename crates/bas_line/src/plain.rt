//! Plain statements.

ghost use Rattle.std.specs.Prelude.{◌≡◌, IfOk};
ghost use Rattle.bas_line.specs.Plains.{plain_at};

use bas_ast::Plain;
use bas_expr::TokenLine;
use bas_record::record_statement;
use bas_statement::statement;
use std::alloc::{AllocError, Global};

/// The longest plain statement from a place on, and the place after it.
#[tactic(auto, unfolding(crate::specs::Plains::plain_at, bas_form::specs::Reader::either))]
pub fn plain_statement(
    alloc: Global,
    line: &TokenLine<'_>,
    at: usize,
) -> Result<Option<(Plain, usize)>, AllocError>
    ensures { IfOk result (λ o. o ≡ plain_at line.now at) }
{
    match record_statement(alloc, line, at)? {
        Some(found) => Ok(Some(found)),
        None => statement(alloc, line, at),
    }
}
