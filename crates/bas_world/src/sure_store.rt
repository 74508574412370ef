ghost use Rattle.std.specs.Prelude.{◌≡◌, ◌≤◌, ◌++◌, [], length, take, drop, is_ok, not, IfOk, OnOk, OnErr, Some, false};
ghost use Rattle.std.specs.Option.{option_map};
ghost use Rattle.std.specs.FinMap as map;
ghost use Rattle.bas_world.specs.Count.{CountMoves};
ghost use Rattle.bas_world.specs.Faults.{store_failed};
ghost use Rattle.bas_world.specs.Files.{HasFile, bytes_at, size_of, with_file, without_file, overwritten, read_length};

use crate::NoMemory;
use crate::store::{Store, StoreFail};
use crate::table::FileTable;
use bas_base::FileName;
use std::alloc::Global;
use std::marker::Model;

/// A store in memory that never fails.
#[derive(Debug, Drop)]
pub struct SureStore {
    table: FileTable,
}

impl Model for SureStore {
    ghost use Rattle.bas_world.specs.Files.{Files};
    ghost use Rattle.bas_world.specs.Memory.{files_code};

    ghost Value = { Files };

    ghost coded = { files_code };

    ghost view = { λ s. s.table };
}

impl SureStore {
    /// An empty store. It takes no memory.
    pub fn new(alloc: Global) -> SureStore
        ensures { result ≡ map.empty }
    {
        SureStore {
            table: FileTable::new(alloc),
        }
    }

    /// Puts a file into the store, over one of that name.
    pub fn put(&mut self, name: FileName, bytes: &[u8]) -> Result<(), NoMemory>
        ensures ok { OnOk result (self.new ≡ with_file self.old name bytes.now) }
        ensures err { OnErr result (self.new ≡ self.old) }
    {
        self.table.put(name, bytes)
    }

    /// The bytes of a file, or `None` where there is none. It takes no memory.
    pub fn get(&self, name: FileName) -> Option<&[u8]>
        ensures { option_map (λ bytes. bytes.now) result ≡ map.get self.now name }
    {
        self.table.get(name)
    }
}

/// No call fails. A call that takes memory may want for it, and then leaves the files as they were.
impl Store for SureStore {
    ghost files = { λ s. Some s };

    ghost faults = { λ _. 0 };

    ghost longest = { λ _. 68 };

    fn size(&mut self, name: FileName) -> Result<Option<u64>, StoreFail>
        ensures size { result ≡ Ok (size_of self.old name) }
        ensures unchanged { self.new ≡ self.old }
    {
        Ok(self.table.size(name))
    }

    fn read_at(&mut self, name: FileName, at: u64, buf: &mut [u8]) -> Result<usize, StoreFail>
        ensures count { result ≡ Ok (read_length (bytes_at self.old name) at (length buf.old)) }
        ensures bytes { IfOk result (λ count. buf.new ≡ take count (drop at (bytes_at self.old name)) ++ drop count buf.old) }
        ensures unchanged { self.new ≡ self.old }
    {
        Ok(self.table.read_at(name, at, buf))
    }

    fn write_at(&mut self, name: FileName, at: u64, bytes: &[u8]) -> Result<(), StoreFail>
        requires { HasFile self.old name }
        ensures ok { OnOk result (self.new ≡ with_file self.old name (overwritten (bytes_at self.old name) at bytes.now)) }
        ensures err { OnErr result (self.new ≡ self.old) }
        ensures failed { store_failed result ≡ false }
    {
        self.table.store_at(name, at, bytes)
    }

    fn cut(&mut self, name: FileName, len: u64) -> Result<(), StoreFail>
        requires there { HasFile self.old name }
        requires within { len ≤ length (bytes_at self.old name) }
        ensures ok { result ≡ Ok tt }
        ensures files { self.new ≡ with_file self.old name (take len (bytes_at self.old name)) }
    {
        self.table.cut(name, len);
        Ok(())
    }

    fn create(&mut self, name: FileName) -> Result<(), StoreFail>
        ensures ok { OnOk result (self.new ≡ with_file self.old name []) }
        ensures err { OnErr result (self.new ≡ self.old) }
        ensures failed { store_failed result ≡ false }
    {
        self.table.make_empty(name)
    }

    fn remove(&mut self, name: FileName) -> Result<(), StoreFail>
        ensures ok { result ≡ Ok tt }
        ensures files { self.new ≡ without_file self.old name }
    {
        self.table.remove(name);
        Ok(())
    }
}
