//! Lines by their parts, and how they are read.

use crate::cases::Text;
use crate::file::count_of;
use bas_block::SourceFault;
use std::alloc::Global;

/// Lines 1, 2, .. of a file, how many units they are, and the line that is refused or open, or 0.
static FILES: [(&[&str], usize, u32); 10] = [
    (&["END"], 1, 0),
    (&["", "DO", "LOOP", "END", ""], 1, 0),
    (&[""], 0, 0),
    (&["DO", ""], 0, 1),
    (&["", ""], 0, 0),
    (&["LOOP", "END"], 0, 1),
    (&["DO", "ELSE", "LOOP"], 0, 2),
    (&["WHEN EXCEPTION IN", "END WHEN", "END"], 0, 2),
    (&["WHEN EXCEPTION IN", "USE", "END WHEN", "END"], 1, 0),
    (&["MODULE M", "END MODULE", "END", "END SUB"], 2, 4),
];

// The file of these lines, numbered from 1.
fn numbered(alloc: Global, lines: &[&str]) -> Text {
    let mut file = Text::new(alloc);
    let mut number: u32 = 0;
    for line in lines {
        number = number.saturating_add(1);
        file.put_line(number, line);
    }
    file
}

// How many units these lines are, or their fault.
fn count_in(alloc: Global, lines: &[&str]) -> Result<usize, SourceFault> {
    let file = numbered(alloc, lines);
    count_of(alloc, file.as_str().as_bytes())
}

// The units in front of the line of a number.
fn units_before(alloc: Global, lines: &[&str], number: u32) -> usize {
    match lines.get(..number.saturating_sub(1) as usize) {
        Some(before) => count_in(alloc, before).unwrap_or(0),
        None => 0,
    }
}

// The line that is refused or open, or 0 where there is no unit. No line has the number of another fault.
fn line_of(fault: SourceFault) -> u32 {
    match fault {
        SourceFault::BadNest(line) => line.number(),
        SourceFault::Unclosed(line) => line.number(),
        SourceFault::NoUnit => 0,
        _ => u32::MAX,
    }
}

// What was read, and the line that was refused or is open.
fn read(alloc: Global, lines: &[&str]) -> (usize, u32) {
    match count_in(alloc, lines) {
        Ok(units) => (units, 0),
        Err(fault) => {
            let left = line_of(fault);
            (units_before(alloc, lines, left), left)
        }
    }
}

#[test]
fn files_are_read(rt: HostRuntime) {
    for (lines, units, left) in &FILES {
        let found = read(rt.alloc(), lines);
        assert!(rt; found.0 == *units && found.1 == *left);
    }
}
