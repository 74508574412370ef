use bas_base::ExAt;

/// How a run for a number of lines ends.
#[derive(Clone, Copy, Debug)]
pub enum Turn {
    /// The program ended.
    Ended,
    /// An unhandled exception ended the program.
    Stopped(ExAt),
    /// A line was reached when no line was left.
    LinesSpent,
    /// An instruction did not find what it takes, or there was none.
    Lost,
    /// The body of the program has a `WHEN` block, or a jump back to an instruction that is not a mark.
    Refused,
    /// The output failed.
    OutputFault,
    /// There was no memory.
    Memory,
}

/// What one instruction leads to.
#[derive(Clone, Copy, Debug)]
pub enum Step {
    /// The next instruction is executed.
    Onward,
    /// The instruction at the address is executed.
    Goes(u16),
    /// The run is over.
    Ends(Turn),
}
