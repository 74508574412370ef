ghost use Rattle.std.specs.Prelude.{◌≤◌, length, IfOk};

use bas_base::FileName;
use std::fs::{OpenFile, OpenOptions};
use std::io::{Error, ErrorKind, Read, Seek, SeekFrom, Write};
use std::rt::Files;
use std::{fs, io, str};

// The path of a file of the current folder. A name is letters, digits, points and the like.
fn path_of(bytes: &[u8]) -> io::Result<&str> {
    match str::from_utf8(bytes) {
        Ok(path) => Ok(path),
        Err(_) => Err(Error::from(ErrorKind::InvalidInput)),
    }
}

/// How many bytes the file has, or `None` where there is none.
pub fn file_size<R: Files>(rt: &R, name: FileName) -> io::Result<Option<u64>> {
    match fs::metadata(rt, path_of(name.bytes())?) {
        Ok(found) if found.is_file() => Ok(Some(found.len())),
        Ok(_) => Err(Error::from(ErrorKind::InvalidInput)),
        Err(error) if error.kind() == ErrorKind::NotFound => Ok(None),
        Err(error) => Err(error),
    }
}

/// Reads the bytes from `at` on, as many as fit, and answers how many there were.
pub fn read_file<R: Files>(rt: &R, name: FileName, at: u64, buf: &mut [u8]) -> io::Result<usize>
    ensures { IfOk result (λ count. count ≤ length buf.old) }
{
    let mut file = fs::open(rt, path_of(name.bytes())?)?;
    file.seek(SeekFrom::Start(at))?;
    fill(&mut file, buf)
}

// Reads until the buffer is full or nothing is left.
fn fill<F: Read>(file: &mut F, buf: &mut [u8]) -> io::Result<usize>
    ensures { IfOk result (λ count. count ≤ length buf.old) }
{
    let mut filled = 0;
    while filled < buf.len() {
        let count = file.read(&mut buf[filled..])?;
        if count == 0 {
            break;
        }
        filled += count;
    }
    Ok(filled)
}

/// Writes the bytes at `at` into a file that is there. Zeros fill a gap behind its end.
pub fn write_file<R: Files>(rt: &R, name: FileName, at: u64, bytes: &[u8]) -> io::Result<()> {
    let mut file = OpenOptions::new()
        .write(true)
        .open(rt, path_of(name.bytes())?)?;
    if file.metadata()?.len() < at {
        file.set_len(at)?;
    }
    file.seek(SeekFrom::Start(at))?;
    file.write_all(bytes)
}

/// Cuts a file that is there to its first `len` bytes.
pub fn cut_file<R: Files>(rt: &R, name: FileName, len: u64) -> io::Result<()> {
    let file = OpenOptions::new()
        .write(true)
        .open(rt, path_of(name.bytes())?)?;
    file.set_len(len)
}

/// Makes the file empty, whether it was there or not.
pub fn make_file<R: Files>(rt: &R, name: FileName) -> io::Result<()> {
    fs::create(rt, path_of(name.bytes())?)?;
    Ok(())
}

/// Drops a file that is there.
pub fn remove_file<R: Files>(rt: &R, name: FileName) -> io::Result<()> {
    fs::remove_file(rt, path_of(name.bytes())?)
}
