use bas_accept::Refusal;
use bas_base::{ExAt, FileName, Name};

/// How a command ends, with what its report line says.
#[derive(Clone, Copy, Debug)]
pub enum Ending {
    /// The program reached its end.
    Ended,
    /// An unhandled exception stopped the run.
    Stopped(ExAt),
    /// The lines that the run was given are spent.
    LinesSpent,
    /// The command line is not valid.
    Usage,
    /// The file is not there.
    Missing(FileName),
    /// The source file is refused.
    Refused(FileName, Refusal),
    /// The file has that many bytes, more than a source file may have.
    FileTooLarge(FileName, u64),
    /// A count of the unit's body passes its limit: one more than the limit, and the limit.
    UnitTooLarge(Name, u32, u32),
    /// The store of files failed.
    StoreFault,
    /// The sink of output failed.
    OutputFault,
    /// There was no memory.
    Memory,
}
