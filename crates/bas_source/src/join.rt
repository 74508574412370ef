//! Lines that go on in the next one.

ghost use Rattle.std.specs.Prelude.{◌≡◌, ◌++◌, IfOk};
ghost use Rattle.bas_source.specs.Lines.{are_joined, joined, joined_before, joined_behind, logical_lines, share};

use crate::bytes::{comes_from, end_of, goes_on, start_of};
use crate::lines::physical_lines;
use bas_base::Seq;
use std::alloc::{AllocError, Global};

fn are_joined(line: &[u8], next: &[u8]) -> bool
    ensures { result ≡ are_joined line.now next.now }
{
    goes_on(line) && comes_from(next)
}

// The line, without its first `&` where it comes from the one before it.
fn joined_before(alloc: Global, before: bool, line: &[u8]) -> Result<Vec<u8>, AllocError>
    ensures { IfOk result (λ text. text.items ≡ joined_before before line.now) }
{
    let mut text = line.to_vec(alloc)?;
    if before {
        let start = start_of(&text);
        if start < text.len() {
            text.remove(start);
        }
    }
    Ok(text)
}

// The line, without its last `&` where the next one comes from it.
fn joined_behind(behind: bool, line: Vec<u8>) -> Vec<u8>
    ensures { result.items ≡ joined_behind behind line.items }
{
    let mut text = line;
    if behind && goes_on(&text) {
        let end = end_of(&text);
        if end > 0 {
            text.remove(end - 1);
        }
    }
    text
}

// What the line gives to the logical line that it is in.
fn share(alloc: Global, before: bool, behind: bool, line: &[u8]) -> Result<Vec<u8>, AllocError>
    ensures { IfOk result (λ text. text.items ≡ share before behind line.now) }
{
    Ok(joined_behind(behind, joined_before(alloc, before, line)?))
}

// The line's share behind the front of its logical line.
fn longer(
    alloc: Global,
    front: Vec<u8>,
    before: bool,
    behind: bool,
    line: &[u8],
) -> Result<Vec<u8>, AllocError>
    ensures { IfOk result (λ text. text.items ≡ front.items ++ share before behind line.now) }
{
    let mut text = front;
    let more = share(alloc, before, behind, line)?;
    text.extend_from_slice(&more)?;
    Ok(text)
}

#[tactic(auto, unfolding(crate::specs::Lines::joined_from), using(crate::proofs::LineLaws::onto_nothing, crate::proofs::LineLaws::line_ends))]
fn joined(alloc: Global, lines: &[Seq<u8>]) -> Result<Vec<Seq<u8>>, AllocError>
    ensures { IfOk result (λ found. found.items ≡ joined lines.now) }
{
    let mut done = Vec::new(alloc);
    let Some((first, others)) = lines.split_first() else {
        return Ok(done);
    };
    let mut line = first;
    let mut rest = others;
    let mut before = false;
    let mut front = Vec::new(alloc);
    while let Some((next, others)) = rest.split_first() {
        let goes_on = are_joined(line.items(), next.items());
        let text = longer(alloc, front, before, goes_on, line.items())?;
        if goes_on {
            front = text;
        } else {
            done.push(Seq::of(text))?;
            front = Vec::new(alloc);
        }
        before = goes_on;
        line = next;
        rest = others;
    }
    let text = longer(alloc, front, before, false, line.items())?;
    done.push(Seq::of(text))?;
    Ok(done)
}

/// The logical lines of a file.
pub fn logical_lines(alloc: Global, file: &[u8]) -> Result<Vec<Seq<u8>>, AllocError>
    ensures { IfOk result (λ lines. lines.items ≡ logical_lines file.now) }
{
    let lines = physical_lines(alloc, file)?;
    joined(alloc, &lines)
}
