use bas_base::Line;
use bas_dec::Dec;

/// The channel slot of a print instruction that prints at the terminal.
pub const TERMINAL: u16 = 65_535;

/// What a place's number counts.
#[derive(Clone, Copy, Debug)]
pub enum Space {
    /// The slots of the body.
    Own,
    /// The slots of the body that contains an internal procedure.
    Container,
    /// The module cells of the image.
    Module,
    /// The public uses of a unit, in objects alone.
    Use,
}

/// Where a variable stands.
#[derive(Clone, Copy, Debug)]
pub struct Place {
    pub space: Space,
    pub number: u16,
}

/// The order of two values that a comparison asks for.
#[derive(Clone, Copy, Debug)]
pub enum Relation {
    Equal,
    NotEqual,
    Less,
    Greater,
    AtMost,
    AtLeast,
}

/// An instruction: one variant for each row of the table, with the kinds of that row.
#[derive(Clone, Copy, Debug)]
pub enum Instr {
    /// Takes one of the lines left, or ends the run where none is left.
    Mark(Line),
    Jump(JumpInstr),
    Run(RunInstr),
    Push(PushInstr),
    Store(StoreInstr),
    Arith(ArithInstr),
    Compare(CompareInstr),
    Print(PrintInstr),
}

/// Jumps. Each holds the address of an instruction of its body.
#[derive(Clone, Copy, Debug)]
pub enum JumpInstr {
    /// Goes to the address.
    Jump(u16),
    /// Pops a truth, and goes to the address where it is false.
    JumpFalse(u16),
    /// Pops a truth, and goes to the address where it is true.
    JumpTrue(u16),
}

/// What begins and ends runs.
#[derive(Clone, Copy, Debug)]
pub enum RunInstr {
    /// Ends the whole run.
    End,
}

/// What pushes a value or a reference.
#[derive(Clone, Copy, Debug)]
pub enum PushInstr {
    /// Pushes the number.
    Num(Dec),
    /// Pushes what the cell at the place holds.
    Load(Place),
    /// Pushes a reference to the cell at the place.
    Ref(Place),
}

/// What stores values.
#[derive(Clone, Copy, Debug)]
pub enum StoreInstr {
    /// Pops a value, then as many references, and stores the value from the first pushed on.
    Store(u16),
}

/// Operators. Each but `Negate` pops the second operand, then the first, and pushes the value.
#[derive(Clone, Copy, Debug)]
pub enum ArithInstr {
    /// Pushes the sum.
    Add,
    /// Pushes the difference.
    Sub,
    /// Pushes the product.
    Mul,
    /// Pushes the quotient.
    Div,
    /// Pushes the power.
    Power,
    /// Pops a number, and pushes it with the other sign.
    Negate,
}

/// Comparisons.
#[derive(Clone, Copy, Debug)]
pub enum CompareInstr {
    /// Pops the second number, then the first, and pushes whether they are so related.
    CompareNum(Relation),
}

/// What prints. Each holds the slot of its channel, or `TERMINAL`.
#[derive(Clone, Copy, Debug)]
pub enum PrintInstr {
    /// Pops a number, and prints it as an item of the print line.
    PrintNum(u16),
    /// Ends the print line.
    PrintEnd(u16),
}
