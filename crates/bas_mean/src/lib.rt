//! The meaning of programs: the world of a run, how lines and blocks end, what expressions and
//! conditions give, and what a list of units does for a number of lines.
//! It stands in specs/, and no program calls it. The functions here are laws about it: each promises
//! what a small program means, for some number of lines, and does nothing.
#![tactic(auto)]

mod examples;

pub use examples::{
    condition_is_cut_short, division_stops_at_its_line, exit_leaves_the_loop,
    goto_leaves_two_blocks, goto_reaches_the_loop_line, greatest_number_is_printed,
    loop_takes_twelve_lines, remarks_take_lines,
};
