ghost use Rattle.std.specs.Prelude.{◌≡◌, ℕ, ◌≤◌, List, Option, [], length, ◌++◌, take, drop, IfOk, OnOk, OnErr, IfSome};
ghost use Rattle.std.specs.Option.{option_map};
ghost use Rattle.bas_world.specs.Count.{CountMoves};
ghost use Rattle.bas_world.specs.Files.{Files, bytes_at, HasFile, size_of, with_file, without_file, overwritten, read_length, IsTornAt};
ghost use Rattle.bas_world.specs.Faults.{store_failed};

use bas_base::FileName;

/// Why a call of a store has no answer: the outside failed, or there was no memory.
#[derive(Clone, Copy, Debug)]
pub enum StoreFail {
    Failed,
    Memory,
}

/// Files under names.
pub trait Store {
    /// The files, where the store tells them.
    ghost files: { Self → Option Files };

    /// How many faults there were. It never falls, and stands still at its last value.
    ghost faults: { Self → ℕ };

    /// The longest name that the store takes.
    ghost longest: { Self → ℕ };

    /// How many bytes the file has, or `None` where there is no such file.
    fn size(&mut self, name: FileName) -> Result<Option<u64>, StoreFail>
        requires { length name ≤ longest self.old }
        ensures size { IfOk result (λ size. IfSome (files self.old) (λ all. size ≡ size_of all name)) }
        ensures unchanged { files self.new ≡ files self.old }
        ensures counted { CountMoves (store_failed result) (faults self.old) (faults self.new) }
        ensures longest { longest self.new ≡ longest self.old };

    /// Reads the bytes from `at` on, as many as fit, and answers how many there were: 0 at the end
    /// of the file and past it.
    fn read_at(&mut self, name: FileName, at: u64, buf: &mut [u8]) -> Result<usize, StoreFail>
        requires short { length name ≤ longest self.old }
        requires there { IfSome (files self.old) (λ all. HasFile all name) }
        ensures within { IfOk result (λ count. count ≤ length buf.old) }
        ensures count { IfOk result (λ count. IfSome (files self.old) (λ all. count ≡ read_length (bytes_at all name) at (length buf.old))) }
        ensures bytes { IfOk result (λ count. IfSome (files self.old) (λ all. buf.new ≡ take count (drop at (bytes_at all name)) ++ drop count buf.old)) }
        ensures unchanged { files self.new ≡ files self.old }
        ensures counted { CountMoves (store_failed result) (faults self.old) (faults self.new) }
        ensures longest { longest self.new ≡ longest self.old };

    /// Writes the bytes at `at`, over what stood there. A gap behind the old end is filled with
    /// zeros. After a failure the written range and what lies past the old end may be anything.
    fn write_at(&mut self, name: FileName, at: u64, bytes: &[u8]) -> Result<(), StoreFail>
        requires short { length name ≤ longest self.old }
        requires there { IfSome (files self.old) (λ all. HasFile all name) }
        ensures ok { OnOk result (files self.new ≡ option_map (λ all. with_file all name (overwritten (bytes_at all name) at bytes.now)) (files self.old)) }
        ensures err { OnErr result (IsTornAt name at (length bytes.now) (files self.old) (files self.new)) }
        ensures counted { CountMoves (store_failed result) (faults self.old) (faults self.new) }
        ensures longest { longest self.new ≡ longest self.old };

    /// Cuts the file to its first `len` bytes, of which it has at least that many.
    fn cut(&mut self, name: FileName, len: u64) -> Result<(), StoreFail>
        requires short { length name ≤ longest self.old }
        requires there { IfSome (files self.old) (λ all. HasFile all name) }
        requires within { IfSome (files self.old) (λ all. len ≤ length (bytes_at all name)) }
        ensures ok { OnOk result (files self.new ≡ option_map (λ all. with_file all name (take len (bytes_at all name))) (files self.old)) }
        ensures err { OnErr result (files self.new ≡ files self.old) }
        ensures counted { CountMoves (store_failed result) (faults self.old) (faults self.new) }
        ensures longest { longest self.new ≡ longest self.old };

    /// Makes the file empty, whether it was there or not.
    fn create(&mut self, name: FileName) -> Result<(), StoreFail>
        requires { length name ≤ longest self.old }
        ensures ok { OnOk result (files self.new ≡ option_map (λ all. with_file all name []) (files self.old)) }
        ensures err { OnErr result (files self.new ≡ files self.old) }
        ensures counted { CountMoves (store_failed result) (faults self.old) (faults self.new) }
        ensures longest { longest self.new ≡ longest self.old };

    /// Drops the file.
    fn remove(&mut self, name: FileName) -> Result<(), StoreFail>
        requires short { length name ≤ longest self.old }
        requires there { IfSome (files self.old) (λ all. HasFile all name) }
        ensures ok { OnOk result (files self.new ≡ option_map (λ all. without_file all name) (files self.old)) }
        ensures err { OnErr result (files self.new ≡ files self.old) }
        ensures counted { CountMoves (store_failed result) (faults self.old) (faults self.new) }
        ensures longest { longest self.new ≡ longest self.old };
}
