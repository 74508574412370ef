//! Images that carry a program, on the machine: the machine does not refuse them, and what it answers
//! and prints is what the program means.
#![tactic(auto)]

mod carried;

pub use carried::{carried_image_is_run, run_carried};
