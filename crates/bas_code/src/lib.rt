//! Instructions, bodies and images. The machine that executes them stands in specs/ as a
//! definition: one row for each instruction, and a run until it ends, stops, or reaches the mark of
//! a line when no line is left. The functions here are laws about it: each promises how the image
//! of a small program runs, and does nothing.
#![tactic(auto)]

mod body;
mod examples;
mod instr;

pub use body::{BodyKind, Guard, Image, LineEntry, Proc};
pub use examples::{jump_images_run, loop_image_runs, other_images_run};
pub use instr::{
    ArithInstr, CompareInstr, Instr, JumpInstr, Place, PrintInstr, PushInstr, Relation, RunInstr,
    Space, StoreInstr, TERMINAL,
};
