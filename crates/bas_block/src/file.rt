//! The units of a file.

ghost use Rattle.std.specs.Prelude.{◌≡◌, ℕ, ◌≤◌, ◌⊎◌, List, length, map, IfOk, IsErrOf, Ok, Err};
ghost use Rattle.std.specs.Option.{option_map};
ghost use Rattle.bas_ast.specs.Tree.{SourceUnit};
ghost use Rattle.bas_ast.specs.BlockTree.{line_tree};
ghost use Rattle.bas_ast.specs.UnitTree.{unit_tree};
ghost use Rattle.bas_block.specs.Files as files;
ghost use Rattle.bas_block.specs.declared.file.SourceFault.{SourceFault};
ghost use Rattle.bas_block.specs.declared.file.SourceFault.TheVariants as fault;
ghost use Rattle.bas_nest.specs.Reading as reading;
ghost use Rattle.bas_nest.specs.States.{open_tree, reading_tree};
ghost use Rattle.bas_line.specs.Itemizing.{item_of};
ghost use Rattle.bas_source.specs.Number.{numbered};

use crate::LINE_BYTES;
use bas_ast::{NumLine, Unit};
use bas_base::{Line, Seq};
use bas_line::{LineFault, line_item};
use bas_nest::{Reading, line_read, nothing_read, unclosed};
use bas_source::{logical_lines, numbered};
use std::alloc::{AllocError, Global};
use thiserror::Error;

/// Why a file has no units. Lines are counted from 1, those that are skipped left out and joined ones
/// as one; a fault of a line that has a number tells the number.
#[derive(Clone, Copy, Debug, Error)]
pub enum SourceFault {
    /// The line of this count has more than 4,096 bytes.
    #[error("line {0} of the file is too long")]
    TooLong(u32),
    /// The line of this count does not begin with a line number.
    #[error("line {0} of the file has no line number")]
    Unnumbered(u32),
    /// The line's number is not above the one before it.
    #[error("a line number is not above the one before it")]
    OutOfOrder(Line),
    /// What follows the number is none of the language.
    #[error("a line is not in the language")]
    BadLine(Line),
    /// The first line that no nesting takes.
    #[error("a line does not fit into what is open")]
    BadNest(Line),
    /// The line that opened the innermost of what is open at the end.
    #[error("what a line opens is not closed")]
    Unclosed(Line),
    /// No line belongs to a unit.
    #[error("the file has no program")]
    NoUnit,
    /// There was no memory for it.
    #[error("out of memory")]
    Memory,
}

impl From<AllocError> for SourceFault {
    ghost use Rattle.std.specs.Prelude.{◌≡◌};
    ghost use Rattle.bas_block.specs.declared.file.SourceFault.TheVariants.{Memory};

    ghost from_gives = { λ _ e. e ≡ Memory };

    fn from(_: AllocError) -> SourceFault {
        SourceFault::Memory
    }
}

// What is read, or the fault of a line; only memory may be wanting besides.
type Read<T> = Result<Result<T, SourceFault>, AllocError>;

// The line of a number, where it has an item.
fn with_item(alloc: Global, line: Line, rest: &[u8]) -> Read<NumLine>
    requires { length rest.now ≤ 4096 }
    ensures { IfOk result (λ r. r ≡ files.with_item line (item_of rest.now)) }
{
    match line_item(alloc, rest) {
        Ok(item) => Ok(Ok(NumLine { line, item })),
        Err(LineFault::NotItem) => Ok(Err(SourceFault::BadLine(line))),
        Err(LineFault::Memory) => Err(AllocError),
    }
}

// The line, where its number is above the last one.
fn in_order(alloc: Global, count: u32, last: u32, text: &[u8]) -> Read<NumLine>
    requires { length text.now ≤ 4096 }
    ensures { IfOk result (λ r. r ≡ files.in_order last (numbered text.now) count) }
{
    match numbered(text) {
        None => Ok(Err(SourceFault::Unnumbered(count))),
        Some((line, rest)) => {
            if last < line.number() {
                with_item(alloc, line, rest)
            } else {
                Ok(Err(SourceFault::OutOfOrder(line)))
            }
        }
    }
}

// The logical line of a count.
fn line_of(alloc: Global, count: u32, last: u32, text: &[u8]) -> Read<NumLine>
    ensures { IfOk result (λ r. r ≡ files.line_of count last text.now) }
{
    if text.len() <= LINE_BYTES {
        in_order(alloc, count, last, text)
    } else {
        Ok(Err(SourceFault::TooLong(count)))
    }
}

// The lines of a file, or the first fault of a line.
#[tactic(auto, unfolding(crate::specs::Files::lines_of))]
fn all_lines(alloc: Global, texts: &[Seq<u8>]) -> Read<Seq<NumLine>>
    ensures { IfOk result (λ r. r ≡ files.lines_of 1 0 texts.now) }
{
    let mut lines = Vec::new(alloc);
    let mut rest = texts;
    let mut count: u32 = 1;
    let mut last: u32 = 0;
    while let Some((text, others)) = rest.split_first() {
        let line = match line_of(alloc, count, last, text.items())? {
            Ok(line) => line,
            Err(fault) => return Ok(Err(fault)),
        };
        last = line.line.number();
        lines.push(line)?;
        count += 1;
        rest = others;
    }
    Ok(Ok(Seq::of(lines)))
}

// What is read of the lines, or the first that no nesting takes.
#[tactic(auto, unfolding(bas_nest::specs::Reading::read))]
fn nest(alloc: Global, lines: Seq<NumLine>) -> Result<Result<Reading, Line>, AllocError>
    ensures { IfOk result (λ r. files.plain_reading r ≡ reading.read reading.nothing_read (map line_tree lines)) }
{
    let mut read = nothing_read(alloc);
    for line in lines.into_items() {
        let number = line.line;
        match line_read(alloc, read, line)? {
            Some(next) => read = next,
            None => return Ok(Err(number)),
        }
    }
    Ok(Ok(read))
}

// The units that were read, where nothing is open.
fn closed(read: Reading) -> Result<Seq<Unit>, SourceFault>
    ensures { files.plain_units result ≡ files.closed (map unit_tree read.units) (reading.unclosed (open_tree read.opened)) }
{
    if let Some(line) = unclosed(&read.opened) {
        return Err(SourceFault::Unclosed(line));
    }
    let Reading { units, .. } = read;
    if units.items().is_empty() {
        return Err(SourceFault::NoUnit);
    }
    Ok(units)
}

// The units of some lines.
fn units_of_lines(alloc: Global, lines: Seq<NumLine>) -> Read<Seq<Unit>>
    ensures { IfOk result (λ r. files.plain_units r ≡ files.units_of_lines (Ok lines)) }
{
    match nest(alloc, lines)? {
        Ok(read) => Ok(closed(read)),
        Err(line) => Ok(Err(SourceFault::BadNest(line))),
    }
}

// The units of a file, or its first fault.
fn read_file(alloc: Global, file: &[u8]) -> Read<Seq<Unit>>
    ensures { IfOk result (λ r. files.plain_units r ≡ files.units_of file.now) }
{
    let texts = logical_lines(alloc, file)?;
    match all_lines(alloc, &texts)? {
        Ok(lines) => units_of_lines(alloc, lines),
        Err(fault) => Ok(Err(fault)),
    }
}

/// The units of a source file, in their order, or its first fault: at each logical line in turn `TooLong`,
/// `Unnumbered`, `OutOfOrder`, `BadLine`; then `BadNest`, `Unclosed` and `NoUnit`. It takes time and memory
/// in proportion to the file.
#[tactic(auto, using(crate::proofs::FileLaws::file_stands, crate::proofs::FileLaws::only_units, crate::proofs::FileLaws::no_units))]
pub fn units_of(alloc: Global, file: &[u8]) -> Result<Vec<Unit>, SourceFault>
    ensures found { IfOk result (λ units. files.IsFile file.now (map unit_tree units.items)) }
    ensures only { IfOk result (λ units. (other : List SourceUnit) → files.IsFile file.now other → other ≡ map unit_tree units.items) }
    ensures value { IfOk result (λ units. files.units_of file.now ≡ Ok (map unit_tree units.items)) }

    // A fault is the file's first one, and a file that has one has no units.
    ensures fault { (f : SourceFault) → IsErrOf result f → (f ≡ fault.Memory) ⊎ (files.units_of file.now ≡ Err f) }
    ensures none { (f : SourceFault) (units : List SourceUnit) → IsErrOf result f → files.IsFile file.now units → f ≡ fault.Memory }
{
    match read_file(alloc, file)? {
        Ok(units) => Ok(units.into_items()),
        Err(fault) => Err(fault),
    }
}
