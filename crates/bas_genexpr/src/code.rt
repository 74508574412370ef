ghost use Rattle.std.specs.Prelude.{◌≡◌, ◌++◌, ◌∷◌, [], length, OnOk};

use bas_base::Seq;
use bas_code::{Instr, PushInstr};
use std::alloc::{AllocError, Global};
use std::marker::Model;

/// The code of a body, which grows at its end.
#[derive(Debug, Drop)]
pub struct Code {
    items: Vec<Instr>,
}

impl Model for Code {
    ghost use Rattle.std.specs.Prelude.{List};
    ghost use Rattle.bas_code.specs.declared.instr.Instr.{Instr};

    ghost Value = { List Instr };

    ghost view = { λ code. code.items.items };
}

// The contracts see an instruction with the number that a `PushInstr` may hold, and the check looks
// that kind up only where a body names it. So each function has a `_named`, which nothing reads.
impl Code {
    /// No instructions.
    pub fn new(alloc: Global) -> Code
        ensures { result ≡ [] }
    {
        let _named: Option<PushInstr> = None;
        Code {
            items: Vec::new(alloc),
        }
    }

    /// How many instructions there are: the address of the next one.
    pub fn len(&self) -> usize
        ensures { result ≡ length self.now }
    {
        let _named: Option<PushInstr> = None;
        self.items.len()
    }

    /// Appends an instruction.
    pub fn push(&mut self, instr: Instr) -> Result<(), AllocError>
        ensures { OnOk result (self.new ≡ self.old ++ instr ∷ []) }
    {
        let _named: Option<PushInstr> = None;
        self.items.push(instr)?;
        Ok(())
    }

    /// The instructions. It takes no memory.
    pub fn into_seq(self) -> Seq<Instr>
        ensures { result ≡ self }
    {
        let _named: Option<PushInstr> = None;
        let Code { items } = self;
        Seq::of(items)
    }
}
