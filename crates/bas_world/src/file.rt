ghost use Rattle.std.specs.Prelude.{◌≡◌, ◌≤◌, [], length, take, drop, ◌++◌, ◌+◌, IfOk, OnOk, OnErr};
ghost use Rattle.bas_world.specs.Files.{overwritten};

use std::alloc::{AllocError, Global};
use std::marker::Model;

// The bytes of one file.
#[derive(Debug, Drop)]
pub struct FileBytes {
    bytes: Vec<u8>,
}

impl Model for FileBytes {
    ghost use Rattle.std.specs.Prelude.{List, ℕ};

    ghost Value = { List ℕ };

    ghost view = { λ f. f.bytes.items };
}

impl FileBytes {
    pub fn empty(alloc: Global) -> FileBytes
        ensures { result ≡ [] }
    {
        FileBytes {
            bytes: Vec::new(alloc),
        }
    }

    pub fn of(alloc: Global, bytes: &[u8]) -> Result<FileBytes, AllocError>
        ensures { IfOk result (λ file. file ≡ bytes.now) }
    {
        Ok(FileBytes {
            bytes: Vec::from_slice(alloc, bytes)?,
        })
    }

    pub fn bytes(&self) -> &[u8]
        ensures { result.now ≡ self.now }
    {
        self.bytes.as_slice()
    }

    // Writes the bytes over what stands at `at`, with zeros in a gap behind the old end.
    pub fn write_at(&mut self, at: usize, piece: &[u8]) -> Result<(), AllocError>
        ensures ok { OnOk result (self.new ≡ overwritten self.old at piece.now) }
        ensures err { OnErr result (self.new ≡ self.old) }
    {
        let Some(end) = at.checked_add(piece.len()) else {
            return Err(AllocError);
        };
        let len = self.bytes.len().max(end);
        self.bytes.resize(len, 0)?;
        put_piece(&mut self.bytes, at, piece);
        Ok(())
    }

    // Keeps the first `len` bytes.
    pub fn cut(&mut self, len: usize)
        ensures { self.new ≡ take len self.old }
    {
        self.bytes.truncate(len);
    }
}

// Puts the piece over what stands at `at`.
fn put_piece(whole: &mut [u8], at: usize, piece: &[u8])
    requires { at + length piece.now ≤ length whole.old }
    ensures { whole.new ≡ take at whole.old ++ piece.now ++ drop (at + length piece.now) whole.old }
{
    whole[at..at + piece.len()].copy_from_slice(piece);
}
