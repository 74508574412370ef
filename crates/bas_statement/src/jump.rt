//! Statements that go elsewhere, and those of one word.

ghost use Rattle.std.specs.Prelude.{◌≡◌};
ghost use Rattle.bas_ast.specs.declared.statement.Plain.TheVariants as plain;
ghost use Rattle.bas_statement.specs.Statements as grammar;
ghost use Rattle.bas_statement.specs.Reading as reading;

use crate::verb::{Jump, exit_word, jump_word, verb_at};
use bas_ast::Plain;
use bas_base::Line;
use bas_expr::TokenLine;
use bas_list::word::line_number;

/// `"RESTORE" [ number ]`
#[tactic(auto, unfolding(crate::specs::Reading::restore_statement, bas_form::specs::Reader::built, bas_form::specs::Reader::both, bas_form::specs::Reader::optional, bas_form::specs::Reader::terminal))]
pub fn restore_statement(line: &TokenLine<'_>, at: usize) -> Option<(Plain, usize)>
    ensures { result ≡ reading.restore_statement line.now at }
{
    let Some(_) = verb_at(line, at) else {
        return None;
    };
    let at = at + 1;
    match line_number(line, at) {
        Some(number) => Some((Plain::Restore(Some(number)), at + 1)),
        None => Some((Plain::Restore(None), at)),
    }
}

/// `"GOTO" number`
#[tactic(auto, unfolding(crate::specs::Reading::jumping, bas_form::specs::Reader::built, bas_form::specs::Reader::both, bas_form::specs::Reader::terminal))]
pub fn goto_statement(line: &TokenLine<'_>, at: usize) -> Option<(Plain, usize)>
    ensures { result ≡ reading.jumping line.now plain.Goto at }
{
    let Some(_) = verb_at(line, at) else {
        return None;
    };
    let at = at + 1;
    match line_number(line, at) {
        Some(number) => Some((Plain::Goto(number), at + 1)),
        None => None,
    }
}

/// `"GOSUB" number`
#[tactic(auto, unfolding(crate::specs::Reading::jumping, bas_form::specs::Reader::built, bas_form::specs::Reader::both, bas_form::specs::Reader::terminal))]
pub fn gosub_statement(line: &TokenLine<'_>, at: usize) -> Option<(Plain, usize)>
    ensures { result ≡ reading.jumping line.now plain.Gosub at }
{
    let Some(_) = verb_at(line, at) else {
        return None;
    };
    let at = at + 1;
    match line_number(line, at) {
        Some(number) => Some((Plain::Gosub(number), at + 1)),
        None => None,
    }
}

fn jump_to(jump: Jump, number: Line) -> Plain
    ensures { result ≡ grammar.go_of (jump, number) }
{
    match jump {
        Jump::To => Plain::Goto(number),
        Jump::Sub => Plain::Gosub(number),
    }
}

/// `"GO" ( "TO" | "SUB" ) number`
#[tactic(auto, unfolding(crate::specs::Reading::go_statement, bas_form::specs::Reader::built, bas_form::specs::Reader::both, bas_form::specs::Reader::terminal))]
pub fn go_statement(line: &TokenLine<'_>, at: usize) -> Option<(Plain, usize)>
    ensures { result ≡ reading.go_statement line.now at }
{
    let Some(_) = verb_at(line, at) else {
        return None;
    };
    let at = at + 1;
    let Some(jump) = jump_word(line, at) else {
        return None;
    };
    let at = at + 1;
    match line_number(line, at) {
        Some(number) => Some((jump_to(jump, number), at + 1)),
        None => None,
    }
}

/// `"EXIT" ( "DO" | "FOR" | "SUB" | "FUNCTION" | "HANDLER" )`
#[tactic(auto, unfolding(crate::specs::Reading::exit_statement, bas_form::specs::Reader::built, bas_form::specs::Reader::both, bas_form::specs::Reader::terminal))]
pub fn exit_statement(line: &TokenLine<'_>, at: usize) -> Option<(Plain, usize)>
    ensures { result ≡ reading.exit_statement line.now at }
{
    let Some(_) = verb_at(line, at) else {
        return None;
    };
    let at = at + 1;
    match exit_word(line, at) {
        Some(exit) => Some((exit, at + 1)),
        None => None,
    }
}

/// A statement of one word.
#[tactic(auto, unfolding(crate::specs::Reading::alone, bas_form::specs::Reader::built, bas_form::specs::Reader::terminal))]
pub fn alone(line: &TokenLine<'_>, at: usize, statement: Plain) -> Option<(Plain, usize)>
    ensures { result ≡ reading.alone line.now statement at }
{
    match verb_at(line, at) {
        Some(_) => Some((statement, at + 1)),
        None => None,
    }
}
