ghost use Rattle.std.specs.Prelude.{◌≡◌};

/// The answer of the program, whose code is its exit status.
#[derive(Clone, Copy, Debug, PartialEq, Eq)]
pub enum Status {
    /// A program reached its end, or a command did everything that it was asked.
    Ended,
    /// An unhandled exception stopped the run.
    Stopped,
    /// The command line is not valid.
    Usage,
    /// A source file is refused.
    SourceRefused,
    /// The interfaces of the units do not agree.
    LinkRefused,
    /// An object or an image is refused.
    ImageRefused,
    /// The lines that the run was given are spent.
    LinesSpent,
    /// The store of files failed.
    StoreFault,
    /// The source of input failed.
    InputFault,
    /// The sink of output failed.
    OutputFault,
    /// There was no memory.
    Memory,
    /// A file that was named is not there.
    FileMissing,
    /// The sink of the report failed.
    ReportFault,
    /// A file or a count is above its limit.
    TooLarge,
}

impl Status {
    ghost use Rattle.bas_drive.specs.Report.{code_of};

    /// The exit status: 0 to 13.
    pub fn code(self) -> u8
        ensures { result ≡ code_of self }
    {
        self as u8
    }
}
