use std::alloc::AllocError;
use std::env;
use std::io::ErrorKind;
use std::rt::Env;

/// The words of the command line behind the program's name. Where one of them is no text, there are
/// none, since no command has such a word.
pub fn command_words<R: Env + AllocGlobal>(rt: &R) -> Result<Vec<String>, AllocError> {
    match env::args(rt) {
        Ok(words) => words.skip(1).collect(rt.alloc()),
        Err(error) if error.kind() == ErrorKind::OutOfMemory => Err(AllocError),
        Err(_) => Ok(Vec::new(rt.alloc())),
    }
}
