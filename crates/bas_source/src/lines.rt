//! The lines of a file that are written.

ghost use Rattle.std.specs.Prelude.{◌≡◌, IfOk};
ghost use Rattle.std.specs.List.{filter};
ghost use Rattle.bas_source.specs.Lines.{is_written, lines_of, physical_lines, plain_text};

use crate::bytes::{is_dropped, is_written, spaced, split_at_byte};
use bas_base::Seq;
use std::alloc::{AllocError, Global};

// The file with spaces for its tabs, and without each CR in front of an LF.
#[tactic(auto, unfolding(crate::specs::Lines::plain_text))]
fn plain_text(alloc: Global, file: &[u8]) -> Result<Vec<u8>, AllocError>
    ensures { IfOk result (λ text. text.items ≡ plain_text file.now) }
{
    let mut text = Vec::new(alloc);
    let mut rest = file;
    while let Some((first, others)) = rest.split_first() {
        let c = *first;
        if !is_dropped(c, others) {
            text.push(spaced(c))?;
        }
        rest = others;
    }
    Ok(text)
}

fn copied(alloc: Global, bytes: &[u8]) -> Result<Seq<u8>, AllocError>
    ensures { IfOk result (λ copy. copy ≡ bytes.now) }
{
    Ok(Seq::of(bytes.to_vec(alloc)?))
}

#[tactic(auto, using(crate::proofs::LineLaws::next_line, crate::proofs::LineLaws::next_written, crate::proofs::LineLaws::none_written))]
fn written_lines(alloc: Global, text: &[u8]) -> Result<Vec<Seq<u8>>, AllocError>
    ensures { IfOk result (λ lines. lines.items ≡ filter is_written (lines_of text.now)) }
{
    let mut lines = Vec::new(alloc);
    let mut rest = text;
    while !rest.is_empty() {
        let (line, others) = split_at_byte(rest, b'\n');
        if is_written(line) {
            lines.push(copied(alloc, line)?)?;
        }
        rest = others;
    }
    Ok(lines)
}

/// The lines of the file that are written.
pub fn physical_lines(alloc: Global, file: &[u8]) -> Result<Vec<Seq<u8>>, AllocError>
    ensures { IfOk result (λ lines. lines.items ≡ physical_lines file.now) }
{
    let text = plain_text(alloc, file)?;
    written_lines(alloc, &text)
}
