ghost use Rattle.std.specs.Prelude.{◌≡◌, Ok, Err, MatchResult, None};
ghost use Rattle.bas_world.specs.Count.{CountMoves};
ghost use Rattle.bas_world.specs.Faults.{store_failed};

use crate::files::{cut_file, file_size, make_file, read_file, remove_file, write_file};
use bas_base::FileName;
use bas_world::{Store, StoreFail};
use std::io;
use std::rt::Files;

/// The current folder as a store: its files, each under its own name. It tells no content, and
/// counts its errors.
#[derive(Drop)]
pub struct Folder<'a, R> {
    rt: &'a R,
    faults: u64,
}

impl<'a, R: Files> Folder<'a, R> {
    pub fn new(rt: &'a R) -> Folder<'a, R> {
        Folder { rt, faults: 0 }
    }

    // Counts the fault, if the outside failed.
    fn counted<T>(&mut self, answer: io::Result<T>) -> Result<T, StoreFail>
        ensures ok { MatchResult answer (λ value. result ≡ Ok value) (λ _. result ≡ Err StoreFail.Failed) }
        ensures counted { CountMoves (store_failed result) self.old.faults self.new.faults }
    {
        match answer {
            Ok(value) => Ok(value),
            Err(_) => {
                self.faults = self.faults.saturating_add(1);
                Err(StoreFail::Failed)
            }
        }
    }
}

impl<R: Files> Store for Folder<'_, R> {
    ghost files = { λ _. None };

    ghost faults = { λ folder. folder.faults };

    ghost longest = { λ _. 68 };

    fn size(&mut self, name: FileName) -> Result<Option<u64>, StoreFail> {
        let answer = file_size(self.rt, name);
        self.counted(answer)
    }

    fn read_at(&mut self, name: FileName, at: u64, buf: &mut [u8]) -> Result<usize, StoreFail> {
        let answer = read_file(self.rt, name, at, buf);
        self.counted(answer)
    }

    fn write_at(&mut self, name: FileName, at: u64, bytes: &[u8]) -> Result<(), StoreFail> {
        let answer = write_file(self.rt, name, at, bytes);
        self.counted(answer)
    }

    fn cut(&mut self, name: FileName, len: u64) -> Result<(), StoreFail> {
        let answer = cut_file(self.rt, name, len);
        self.counted(answer)
    }

    fn create(&mut self, name: FileName) -> Result<(), StoreFail> {
        let answer = make_file(self.rt, name);
        self.counted(answer)
    }

    fn remove(&mut self, name: FileName) -> Result<(), StoreFail> {
        let answer = remove_file(self.rt, name);
        self.counted(answer)
    }
}
