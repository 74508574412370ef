//! What a case of a table has to be.

use std::alloc::Global;
use std::fmt::{Debug, Write};
use std::process::Abort;

/// A text, and whether memory was left for all of it.
#[derive(Drop)]
pub struct Text {
    string: String,
    is_whole: bool,
}

impl Text {
    /// The text without a character.
    pub fn new(alloc: Global) -> Text {
        Text {
            string: String::new(alloc),
            is_whole: true,
        }
    }

    /// Adds characters.
    pub fn put(&mut self, more: &str) {
        if self.string.push_str(more).is_err() {
            self.is_whole = false;
        }
    }

    /// Adds a character for each byte.
    pub fn put_bytes(&mut self, bytes: &[u8]) {
        for byte in bytes {
            if self.string.push(*byte as char).is_err() {
                self.is_whole = false;
            }
        }
    }

    /// Adds a number.
    pub fn put_number(&mut self, number: i128) {
        if write!(self.string, "{number}").is_err() {
            self.is_whole = false;
        }
    }

    /// Adds a value as it is shown to a programmer.
    pub fn put_value<T: Debug>(&mut self, value: &T) {
        if write!(self.string, "{value:?}").is_err() {
            self.is_whole = false;
        }
    }

    /// Adds a line of a program.
    pub fn put_line(&mut self, number: u32, line: &str) {
        self.put_number(i128::from(number));
        self.put(" ");
        self.put(line);
        self.put("\n");
    }

    /// What the text has so far.
    pub fn as_str(&self) -> &str {
        self.string.as_str()
    }
}

/// Ends the test where the case does not hold.
pub fn check(rt: &impl Abort, case: &str, holds: bool) {
    assert!(rt; holds, "{case}");
}

/// Ends the test where the case is not shown by the wanted text.
pub fn check_text(rt: &impl Abort, case: &str, found: &Text, wanted: &str) {
    let text = found.as_str();
    assert!(rt; found.is_whole && text == wanted, "{case}: {text}");
}
