ghost use Rattle.std.specs.Prelude.{◌≡◌, ◌++◌, ◌∷◌, [], IfOk, OnOk, OnErr, codes, decimal};
ghost use Rattle.bas_mean.specs.Line.{report_line};
ghost use Rattle.bas_vm.specs.Took.{TookAll, TookPrefix};
ghost use Rattle.bas_world.specs.Count.{CountMoves};
ghost use Rattle.bas_world.specs.Faults.{sink_failed};
ghost use Rattle.bas_drive.specs.Headline.{IsTold, is_report_fault};
ghost use Rattle.bas_drive.specs.Report.{exception_of, report_of, status_of, line_about, fault_text, refusal_text, size_text, with_number, with_numbers};

use crate::ending::Ending;
use crate::status::Status;
use crate::top::SOURCE_BYTES;
use bas_accept::Refusal;
use bas_base::ExAt;
use bas_block::SourceFault;
use bas_vm::write_all;
use bas_world::{Sink, SinkFail};
use itoa::Buffer;
use std::alloc::{AllocError, Global};

const USAGE_LINE: &[u8] = b"usage: fullbasic check, compile, link, run, go, list or demo\n";

/// The status of an ending.
pub fn status_of(ending: Ending) -> Status
    ensures { result ≡ status_of ending }
{
    match ending {
        Ending::Ended => Status::Ended,
        Ending::Stopped(_) => Status::Stopped,
        Ending::LinesSpent => Status::LinesSpent,
        Ending::Usage => Status::Usage,
        Ending::Missing(_) => Status::FileMissing,
        Ending::Refused(_, _) => Status::SourceRefused,
        Ending::FileTooLarge(_, _) => Status::TooLarge,
        Ending::UnitTooLarge(_, _, _) => Status::TooLarge,
        Ending::StoreFault => Status::StoreFault,
        Ending::OutputFault => Status::OutputFault,
        Ending::Memory => Status::Memory,
    }
}

// A line about a file or a unit.
fn line_about(alloc: Global, name: &[u8], text: &[u8]) -> Result<Vec<u8>, AllocError>
    ensures { IfOk result (λ line. line.items ≡ line_about name.now text.now) }
{
    let mut line = Vec::from_slice(alloc, name)?;
    line.extend_from_slice(b": ")?;
    line.extend_from_slice(text)?;
    line.push(b'\n')?;
    Ok(line)
}

fn with_number(alloc: Global, word: &[u8], number: u64) -> Result<Vec<u8>, AllocError>
    ensures { IfOk result (λ text. text.items ≡ with_number word.now number) }
{
    let mut digits = Buffer::new();
    let mut text = Vec::from_slice(alloc, word)?;
    text.extend_from_slice(digits.format(number).as_bytes())?;
    Ok(text)
}

fn with_numbers(alloc: Global, word: &[u8], first: u64, second: u64) -> Result<Vec<u8>, AllocError>
    ensures { IfOk result (λ text. text.items ≡ with_numbers word.now first second) }
{
    let mut text = with_number(alloc, word, first)?;
    let behind = with_number(alloc, b" ", second)?;
    text.extend_from_slice(behind.as_slice())?;
    Ok(text)
}

fn fault_text(alloc: Global, fault: &SourceFault) -> Result<Vec<u8>, AllocError>
    ensures { IfOk result (λ text. text.items ≡ fault_text fault.now) }
{
    match fault {
        SourceFault::TooLong(count) => with_number(alloc, b"TooLong ", u64::from(*count)),
        SourceFault::Unnumbered(count) => with_number(alloc, b"Unnumbered ", u64::from(*count)),
        SourceFault::OutOfOrder(line) => with_number(
            alloc,
            b"OutOfOrder ",
            u64::from(line.number()),
        ),
        SourceFault::BadLine(line) => with_number(alloc, b"BadLine ", u64::from(line.number())),
        SourceFault::BadNest(line) => with_number(alloc, b"BadNest ", u64::from(line.number())),
        SourceFault::Unclosed(line) => with_number(alloc, b"Unclosed ", u64::from(line.number())),
        SourceFault::NoUnit => Vec::from_slice(alloc, b"NoUnit"),
        SourceFault::Memory => Ok(Vec::new(alloc)),
    }
}

fn refusal_text(alloc: Global, refusal: &Refusal) -> Result<Vec<u8>, AllocError>
    ensures { IfOk result (λ text. text.items ≡ refusal_text refusal.now) }
{
    match refusal {
        Refusal::Source(fault) => fault_text(alloc, fault),
        Refusal::Rule(rule, line) => {
            with_numbers(alloc, b"Rule ", u64::from(*rule), u64::from(line.number()))
        }
    }
}

fn stop_line(alloc: Global, at: &ExAt) -> Result<Vec<u8>, AllocError>
    ensures { IfOk result (λ text. text.items ≡ report_line (exception_of at.now)) }
{
    let mut exception = Buffer::new();
    let mut line = Buffer::new();
    let mut text = Vec::from_slice(alloc, b"exception ")?;
    text.extend_from_slice(exception.format(at.ex.0).as_bytes())?;
    text.extend_from_slice(b" at line ")?;
    text.extend_from_slice(line.format(at.line.number()).as_bytes())?;
    text.extend_from_slice(b" of ")?;
    text.extend_from_slice(at.unit.bytes())?;
    text.push(b'\n')?;
    Ok(text)
}

// What the report gets of a size that passes its limit.
fn size_line(alloc: Global, name: &[u8], size: u64, limit: u64) -> Result<Vec<u8>, AllocError>
    ensures { IfOk result (λ line. line.items ≡ line_about name.now (size_text size limit)) }
{
    let text = with_numbers(alloc, b"too large ", size, limit)?;
    line_about(alloc, name, text.as_slice())
}

// What the report gets of an ending: one line, or nothing.
fn report_of(alloc: Global, ending: &Ending) -> Result<Vec<u8>, AllocError>
    ensures { IfOk result (λ text. text.items ≡ report_of ending.now) }
{
    match ending {
        Ending::Ended | Ending::Memory => Ok(Vec::new(alloc)),
        Ending::Stopped(at) => stop_line(alloc, at),
        Ending::LinesSpent => Vec::from_slice(alloc, b"lines spent\n"),
        Ending::Usage => Vec::from_slice(alloc, USAGE_LINE),
        Ending::Missing(name) => line_about(alloc, name.bytes(), b"missing"),
        Ending::Refused(name, refusal) => {
            let text = refusal_text(alloc, refusal)?;
            line_about(alloc, name.bytes(), text.as_slice())
        }
        Ending::FileTooLarge(name, size) => {
            size_line(alloc, name.bytes(), *size, SOURCE_BYTES as u64)
        }
        Ending::UnitTooLarge(unit, size, limit) => {
            size_line(alloc, unit.bytes(), u64::from(*size), u64::from(*limit))
        }
        Ending::StoreFault => Vec::from_slice(alloc, b"store fault\n"),
        Ending::OutputFault => Vec::from_slice(alloc, b"output fault\n"),
    }
}

/// Writes the report line of an ending, and answers its status.
pub fn write_report<E: Sink>(alloc: Global, ending: Ending, report: &mut E) -> Status
    ensures told { IsTold ending (E.taken report.old) (E.taken report.new) result }
    ensures counted { CountMoves (is_report_fault result) (E.faults report.old) (E.faults report.new) }
{
    let text = match report_of(alloc, &ending) {
        Ok(text) => text,
        Err(_) => return Status::Memory,
    };
    match write_all(report, text.as_slice()) {
        Ok(()) => status_of(ending),
        Err(SinkFail::Failed) => Status::ReportFault,
        Err(SinkFail::Memory) => Status::Memory,
    }
}
