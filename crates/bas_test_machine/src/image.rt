//! Images of one body, built by hand.

use bas_base::{Line, Name, Seq};
use bas_code::{
    BodyKind, Image, Instr, LineEntry, PrintInstr, Proc, PushInstr, RunInstr, TERMINAL,
};
use bas_dec::Dec;
use std::alloc::{AllocError, Global};
use std::test::Fail;

/// Pops a number, and prints it.
pub const PRINT: Instr = Instr::Print(PrintInstr::PrintNum(TERMINAL));

/// Ends the print line.
pub const END_LINE: Instr = Instr::Print(PrintInstr::PrintEnd(TERMINAL));

/// Ends the run.
pub const END: Instr = Instr::Run(RunInstr::End);

/// Pushes a whole number.
pub fn number(n: i128) -> Result<Instr, Fail> {
    let x = Dec::of_parts(n, 0).ok_or("a number")?;
    Ok(Instr::Push(PushInstr::Num(x)))
}

/// Marks a line.
pub fn mark(n: u32) -> Result<Instr, Fail> {
    Ok(Instr::Mark(Line::of(n).ok_or("a line")?))
}

/// The entry of a line.
pub fn row(n: u32, start: u16, end: u16) -> Result<LineEntry, Fail> {
    Ok(LineEntry {
        line: Line::of(n).ok_or("a line")?,
        start,
        end,
        next: end,
    })
}

/// The image of the program `MAIN` with this body.
pub fn image(
    alloc: Global,
    slots: u16,
    code: Vec<Instr>,
    lines: Vec<LineEntry>,
) -> Result<Image, Fail> {
    let name = Name::of(b"MAIN").ok_or("a name")?;
    let mut procs = Vec::new(alloc);
    let proc = Proc {
        kind: BodyKind::Main,
        unit: name,
        slots,
        code: Seq::of(code),
        lines: Seq::of(lines),
        guards: Seq::of(Vec::new(alloc)),
    };
    if procs.push(proc).is_err() {
        return Err(Fail::from(AllocError));
    }
    let programs = vec![in alloc; (name, 0)]?;
    Ok(Image {
        programs: Seq::of(programs),
        procs: Seq::of(procs),
    })
}
