//! The lines of branches and loops, and those of a word and a name.

ghost use Rattle.std.specs.Prelude.{◌≡◌, IfOk};
ghost use Rattle.bas_ast.specs.declared.part.Part.TheVariants as tree;
ghost use Rattle.bas_declaration.specs.Parts as grammar;
ghost use Rattle.bas_declaration.specs.Reading as reading;

use crate::keyword::{
    LoopWord, case_word, closed_word, step_word, then_word, to_word, turn_word, word_at,
};
use crate::mark::equals;
use bas_ast::{Cond, Expr, Loopc, Part};
use bas_expr::{LEVELS, TokenLine, longest_cond, longest_expr};
use std::alloc::{AllocError, Global};

type Read<T> = Result<Option<(T, usize)>, AllocError>;

/// `"IF" cond "THEN"`
#[tactic(auto, unfolding(crate::specs::Reading::tested, bas_form::specs::Reader::built, bas_form::specs::Reader::both, bas_form::specs::Reader::terminal))]
pub fn if_line(alloc: Global, line: &TokenLine<'_>, at: usize) -> Read<Part>
    ensures { IfOk result (λ o. o ≡ reading.tested line.now tree.If at) }
{
    let Some(_) = word_at(line, at) else {
        return Ok(None);
    };
    let Some((test, after)) = longest_cond(alloc, line, at + 1, LEVELS)? else {
        return Ok(None);
    };
    let Some(()) = then_word(line, after) else {
        return Ok(None);
    };
    Ok(Some((Part::If(test), after + 1)))
}

/// `"ELSEIF" cond "THEN"`
#[tactic(auto, unfolding(crate::specs::Reading::tested, bas_form::specs::Reader::built, bas_form::specs::Reader::both, bas_form::specs::Reader::terminal))]
pub fn elseif_line(alloc: Global, line: &TokenLine<'_>, at: usize) -> Read<Part>
    ensures { IfOk result (λ o. o ≡ reading.tested line.now tree.Elseif at) }
{
    let Some(_) = word_at(line, at) else {
        return Ok(None);
    };
    let Some((test, after)) = longest_cond(alloc, line, at + 1, LEVELS)? else {
        return Ok(None);
    };
    let Some(()) = then_word(line, after) else {
        return Ok(None);
    };
    Ok(Some((Part::Elseif(test), after + 1)))
}

fn loopc(word: LoopWord, test: Cond) -> Loopc
    ensures { result ≡ grammar.loopc_of (word, test) }
{
    match word {
        LoopWord::While => Loopc::While(test),
        LoopWord::Until => Loopc::Until(test),
    }
}

/// `( "WHILE" | "UNTIL" ) cond`
#[tactic(auto, unfolding(crate::specs::Reading::loop_cond, bas_form::specs::Reader::built, bas_form::specs::Reader::both, bas_form::specs::Reader::terminal))]
fn loop_cond(alloc: Global, line: &TokenLine<'_>, at: usize) -> Read<Loopc>
    ensures { IfOk result (λ o. o ≡ reading.loop_cond line.now at) }
{
    let Some(word) = turn_word(line, at) else {
        return Ok(None);
    };
    let Some((test, after)) = longest_cond(alloc, line, at + 1, LEVELS)? else {
        return Ok(None);
    };
    Ok(Some((loopc(word, test), after)))
}

/// `"DO" [ loopc ]`
#[tactic(auto, unfolding(crate::specs::Reading::looping, bas_form::specs::Reader::built, bas_form::specs::Reader::both, bas_form::specs::Reader::optional, bas_form::specs::Reader::terminal))]
pub fn do_line(alloc: Global, line: &TokenLine<'_>, at: usize) -> Read<Part>
    ensures { IfOk result (λ o. o ≡ reading.looping line.now tree.Do at) }
{
    let Some(_) = word_at(line, at) else {
        return Ok(None);
    };
    match loop_cond(alloc, line, at + 1)? {
        Some((test, after)) => Ok(Some((Part::Do(Some(test)), after))),
        None => Ok(Some((Part::Do(None), at + 1))),
    }
}

/// `"LOOP" [ loopc ]`
#[tactic(auto, unfolding(crate::specs::Reading::looping, bas_form::specs::Reader::built, bas_form::specs::Reader::both, bas_form::specs::Reader::optional, bas_form::specs::Reader::terminal))]
pub fn loop_line(alloc: Global, line: &TokenLine<'_>, at: usize) -> Read<Part>
    ensures { IfOk result (λ o. o ≡ reading.looping line.now tree.Loop at) }
{
    let Some(_) = word_at(line, at) else {
        return Ok(None);
    };
    match loop_cond(alloc, line, at + 1)? {
        Some((test, after)) => Ok(Some((Part::Loop(Some(test)), after))),
        None => Ok(Some((Part::Loop(None), at + 1))),
    }
}

/// `"STEP" expr`
#[tactic(auto, unfolding(crate::specs::Reading::step, bas_form::specs::Reader::built, bas_form::specs::Reader::both, bas_form::specs::Reader::terminal))]
fn step(alloc: Global, line: &TokenLine<'_>, at: usize) -> Read<Expr>
    ensures { IfOk result (λ o. o ≡ reading.step line.now at) }
{
    let Some(()) = step_word(line, at) else {
        return Ok(None);
    };
    let Some((value, after)) = longest_expr(alloc, line, at + 1, LEVELS)? else {
        return Ok(None);
    };
    Ok(Some((value, after)))
}

/// `"FOR" name "=" expr "TO" expr [ "STEP" expr ]`
#[tactic(auto, unfolding(crate::specs::Reading::for_line, bas_form::specs::Reader::built, bas_form::specs::Reader::both, bas_form::specs::Reader::optional, bas_form::specs::Reader::terminal))]
pub fn for_line(alloc: Global, line: &TokenLine<'_>, at: usize) -> Read<Part>
    ensures { IfOk result (λ o. o ≡ reading.for_line line.now at) }
{
    let Some(_) = word_at(line, at) else {
        return Ok(None);
    };
    let at = at + 1;
    let Some(name) = line.own_name(at) else {
        return Ok(None);
    };
    let at = at + 1;
    let Some(()) = equals(line, at) else {
        return Ok(None);
    };
    let Some((start, at)) = longest_expr(alloc, line, at + 1, LEVELS)? else {
        return Ok(None);
    };
    let Some(()) = to_word(line, at) else {
        return Ok(None);
    };
    let Some((limit, at)) = longest_expr(alloc, line, at + 1, LEVELS)? else {
        return Ok(None);
    };
    match step(alloc, line, at)? {
        Some((step, after)) => Ok(Some((
            Part::For {
                name,
                start,
                limit,
                step: Some(step),
            },
            after,
        ))),
        None => Ok(Some((
            Part::For {
                name,
                start,
                limit,
                step: None,
            },
            at,
        ))),
    }
}

/// `"NEXT" name`
#[tactic(auto, unfolding(crate::specs::Reading::named, bas_form::specs::Reader::built, bas_form::specs::Reader::both, bas_form::specs::Reader::terminal))]
pub fn next_line(line: &TokenLine<'_>, at: usize) -> Option<(Part, usize)>
    ensures { result ≡ reading.named line.now tree.Next at }
{
    let Some(_) = word_at(line, at) else {
        return None;
    };
    let at = at + 1;
    let Some(name) = line.own_name(at) else {
        return None;
    };
    Some((Part::Next(name), at + 1))
}

/// `"HANDLER" name`
#[tactic(auto, unfolding(crate::specs::Reading::named, bas_form::specs::Reader::built, bas_form::specs::Reader::both, bas_form::specs::Reader::terminal))]
pub fn handler_line(line: &TokenLine<'_>, at: usize) -> Option<(Part, usize)>
    ensures { result ≡ reading.named line.now tree.Handler at }
{
    let Some(_) = word_at(line, at) else {
        return None;
    };
    let at = at + 1;
    let Some(name) = line.own_name(at) else {
        return None;
    };
    Some((Part::Handler(name), at + 1))
}

/// `"MODULE" name`
#[tactic(auto, unfolding(crate::specs::Reading::named, bas_form::specs::Reader::built, bas_form::specs::Reader::both, bas_form::specs::Reader::terminal))]
pub fn module_line(line: &TokenLine<'_>, at: usize) -> Option<(Part, usize)>
    ensures { result ≡ reading.named line.now tree.Module at }
{
    let Some(_) = word_at(line, at) else {
        return None;
    };
    let at = at + 1;
    let Some(name) = line.own_name(at) else {
        return None;
    };
    Some((Part::Module(name), at + 1))
}

/// `"SELECT" "CASE" expr`
#[tactic(auto, unfolding(crate::specs::Reading::select_line, bas_form::specs::Reader::built, bas_form::specs::Reader::both, bas_form::specs::Reader::terminal))]
pub fn select_line(alloc: Global, line: &TokenLine<'_>, at: usize) -> Read<Part>
    ensures { IfOk result (λ o. o ≡ reading.select_line line.now at) }
{
    let Some(_) = word_at(line, at) else {
        return Ok(None);
    };
    let at = at + 1;
    let Some(()) = case_word(line, at) else {
        return Ok(None);
    };
    let Some((selector, after)) = longest_expr(alloc, line, at + 1, LEVELS)? else {
        return Ok(None);
    };
    Ok(Some((Part::SelectCase(selector), after)))
}

/// `"ELSE"`
#[tactic(auto, unfolding(crate::specs::Reading::alone, bas_form::specs::Reader::built, bas_form::specs::Reader::terminal))]
pub fn else_line(line: &TokenLine<'_>, at: usize) -> Option<(Part, usize)>
    ensures { result ≡ reading.alone line.now tree.Else at }
{
    let Some(_) = word_at(line, at) else {
        return None;
    };
    Some((Part::Else, at + 1))
}

/// `"USE"`
#[tactic(auto, unfolding(crate::specs::Reading::alone, bas_form::specs::Reader::built, bas_form::specs::Reader::terminal))]
pub fn use_line(line: &TokenLine<'_>, at: usize) -> Option<(Part, usize)>
    ensures { result ≡ reading.alone line.now tree.Use at }
{
    let Some(_) = word_at(line, at) else {
        return None;
    };
    Some((Part::Use, at + 1))
}

/// `"END"`, perhaps with the word of what it closes.
#[tactic(auto, unfolding(crate::specs::Reading::end_line, bas_form::specs::Reader::built, bas_form::specs::Reader::both, bas_form::specs::Reader::optional, bas_form::specs::Reader::terminal))]
pub fn end_line(line: &TokenLine<'_>, at: usize) -> Option<(Part, usize)>
    ensures { result ≡ reading.end_line line.now at }
{
    let Some(_) = word_at(line, at) else {
        return None;
    };
    let at = at + 1;
    match closed_word(line, at) {
        Some(closed) => Some((closed, at + 1)),
        None => Some((Part::End, at)),
    }
}
