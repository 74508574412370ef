ghost use Rattle.std.specs.Prelude.{◌≡◌, ◌+◌, ◌≤◌, nat_lt, length, take, OnOk, OnErr};
ghost use Rattle.bas_console.specs.Layout.{item, comma, tab, line_end, placed, spaced_to, ended_where, needs_end, sequence};
ghost use Rattle.bas_console.specs.Prints.{Prints, Stays, Extends};

use std::alloc::AllocError;
use std::marker::Model;

/// How wide the zones of a line are.
const ZONE: u32 = 16;

/// A line that is being printed: its margin, and its column, the number of bytes on it.
#[derive(Debug, Drop)]
pub struct PrintLine {
    margin: u32,
    column: u32,
}

impl Model for PrintLine {
    ghost use Rattle.bas_console.specs.Line.{Line, IsLine};

    ghost Value = { Line };

    ghost view = { λ l. record { margin = l.margin; column = l.column } };

    ghost invariant = { λ l. IsLine (record { margin = l.margin; column = l.column }) };
}

impl PrintLine {
    /// The line with that margin, 1 or more, and that many bytes on it, at most the margin.
    pub fn new(margin: u32, column: u32) -> PrintLine
        requires room { 1 ≤ margin }
        requires within { column ≤ margin }
        ensures { result ≡ record { margin = margin; column = column } }
    {
        PrintLine { margin, column }
    }

    /// The column: the number of bytes on the line, from 0 to the margin.
    pub fn column(&self) -> u32
        ensures same { result ≡ self.now.column }
        ensures within { result ≤ self.now.margin }
    {
        self.column
    }

    /// Prints an item of any length. Where it does not fit after what is on the line, the line
    /// ends first, and one that is longer than the margin is cut in pieces of the margin.
    ///
    /// After `NoMemory` the line and `out` are as before.
    pub fn item(&mut self, text: &[u8], out: &mut Vec<u8>) -> Result<(), AllocError>
        ensures printed { OnOk result (Prints (item self.old.margin text.now) self.old self.new out.old.items out.new.items) }
        ensures unchanged { OnErr result (Stays self.old self.new out.old.items out.new.items) }
    {
        let (column, length) = (self.column, out.len());
        match self.print_pieces(text, out) {
            Ok(()) => Ok(()),
            Err(fault) => {
                self.take_back(column, length, out);
                Err(fault)
            }
        }
    }

    /// Prints a comma: spaces up to the next column that 16 divides, or the end of the line where
    /// that column is at or past the margin.
    ///
    /// After `NoMemory` the line and `out` are as before.
    pub fn comma(&mut self, out: &mut Vec<u8>) -> Result<(), AllocError>
        ensures printed { OnOk result (Prints (comma self.old.margin) self.old self.new out.old.items out.new.items) }
        ensures unchanged { OnErr result (Stays self.old self.new out.old.items out.new.items) }
    {
        let spaces = ZONE - self.column % ZONE;
        if spaces < self.margin - self.column {
            self.space_to(self.column + spaces, out)
        } else {
            self.end(out)
        }
    }

    /// Prints `TAB(n)`, for an `n` of 1 or more: spaces up to the `n`-th place, which is column
    /// `n - 1`, on the next line where this one is past it. An `n` past the margin counts on from
    /// the first place.
    ///
    /// After `NoMemory` the line and `out` are as before.
    pub fn tab(&mut self, n: u32, out: &mut Vec<u8>) -> Result<(), AllocError>
        requires { 1 ≤ n }
        ensures printed { OnOk result (Prints (tab self.old.margin n) self.old self.new out.old.items out.new.items) }
        ensures unchanged { OnErr result (Stays self.old self.new out.old.items out.new.items) }
    {
        let (column, length) = (self.column, out.len());
        match self.go_to((n - 1) % self.margin, out) {
            Ok(()) => Ok(()),
            Err(fault) => {
                self.take_back(column, length, out);
                Err(fault)
            }
        }
    }

    /// Ends the line.
    ///
    /// After `NoMemory` the line and `out` are as before.
    pub fn end(&mut self, out: &mut Vec<u8>) -> Result<(), AllocError>
        ensures printed { OnOk result (Prints line_end self.old self.new out.old.items out.new.items) }
        ensures unchanged { OnErr result (Stays self.old self.new out.old.items out.new.items) }
    {
        out.push(b'\n')?;
        self.column = 0;
        Ok(())
    }

    /// Sets the column to 0, since the reply that was read ended the line.
    pub fn replied(&mut self)
        ensures { self.new ≡ record self.old { column = 0 } }
    {
        self.column = 0;
    }

    /// Prints an item piece by piece. After an error some pieces are printed.
    fn print_pieces(&mut self, text: &[u8], out: &mut Vec<u8>) -> Result<(), AllocError>
        ensures printed { OnOk result (Prints (item self.old.margin text.now) self.old self.new out.old.items out.new.items) }
        ensures extended { Extends self.old self.new out.old.items out.new.items }
    {
        for piece in text.chunks(self.margin as usize) {
            self.print_piece(piece, out)?;
        }
        Ok(())
    }

    /// Prints an item that is not longer than the margin. After an error the line may have ended.
    fn print_piece(&mut self, piece: &[u8], out: &mut Vec<u8>) -> Result<(), AllocError>
        requires { length piece.now ≤ self.old.margin }
        ensures printed { OnOk result (Prints (item self.old.margin piece.now) self.old self.new out.old.items out.new.items) }
        ensures extended { Extends self.old self.new out.old.items out.new.items }
    {
        self.make_room(piece.len(), out)?;
        self.place(piece, out)
    }

    /// Ends the line where so many bytes do not fit after what is on it.
    fn make_room(&mut self, count: usize, out: &mut Vec<u8>) -> Result<(), AllocError>
        requires { count ≤ self.old.margin }
        ensures printed { OnOk result (Prints (ended_where (needs_end self.old.margin count)) self.old self.new out.old.items out.new.items) }
        ensures room { OnOk result (self.new.column + count ≤ self.new.margin) }
        ensures unchanged { OnErr result (Stays self.old self.new out.old.items out.new.items) }
    {
        if self.column > 0 && self.column as usize + count > self.margin as usize {
            self.end(out)
        } else {
            Ok(())
        }
    }

    /// Appends bytes that fit after what is on the line.
    fn place(&mut self, bytes: &[u8], out: &mut Vec<u8>) -> Result<(), AllocError>
        requires { self.old.column + length bytes.now ≤ self.old.margin }
        ensures printed { OnOk result (Prints (placed bytes.now) self.old self.new out.old.items out.new.items) }
        ensures unchanged { OnErr result (Stays self.old self.new out.old.items out.new.items) }
    {
        let column = self.column + bytes.len() as u32;
        out.extend_from_slice(bytes)?;
        self.column = column;
        Ok(())
    }

    /// Goes to a column, on the next line where this one is past it. After an error the line may
    /// have ended.
    fn go_to(&mut self, target: u32, out: &mut Vec<u8>) -> Result<(), AllocError>
        requires { target ≤ self.old.margin }
        ensures printed { OnOk result (Prints (sequence (ended_where (λ c. nat_lt target c)) (spaced_to target)) self.old self.new out.old.items out.new.items) }
        ensures extended { Extends self.old self.new out.old.items out.new.items }
    {
        self.end_past(target, out)?;
        self.space_to(target, out)
    }

    /// Ends the line where it is past a column.
    fn end_past(&mut self, target: u32, out: &mut Vec<u8>) -> Result<(), AllocError>
        ensures printed { OnOk result (Prints (ended_where (λ c. nat_lt target c)) self.old self.new out.old.items out.new.items) }
        ensures before { OnOk result (self.new.column ≤ target) }
        ensures unchanged { OnErr result (Stays self.old self.new out.old.items out.new.items) }
    {
        if target < self.column {
            self.end(out)
        } else {
            Ok(())
        }
    }

    /// Appends spaces up to a column.
    fn space_to(&mut self, target: u32, out: &mut Vec<u8>) -> Result<(), AllocError>
        requires before { self.old.column ≤ target }
        requires within { target ≤ self.old.margin }
        ensures printed { OnOk result (Prints (spaced_to target) self.old self.new out.old.items out.new.items) }
        ensures unchanged { OnErr result (Stays self.old self.new out.old.items out.new.items) }
    {
        let spaces = (target - self.column) as usize;
        out.resize(out.len() + spaces, b' ')?;
        self.column = target;
        Ok(())
    }

    /// Takes back what was appended after the first `length` bytes.
    fn take_back(&mut self, column: u32, length: usize, out: &mut Vec<u8>)
        requires { column ≤ self.old.margin }
        ensures line { self.new ≡ record self.old { column = column } }
        ensures output { out.new.items ≡ take length out.old.items }
    {
        self.column = column;
        out.truncate(length);
    }
}
