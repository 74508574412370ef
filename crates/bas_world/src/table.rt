ghost use Rattle.std.specs.Prelude.{◌≡◌, ◌≤◌, [], length, take, drop, ◌++◌, OnOk, OnErr, false};
ghost use Rattle.std.specs.Option.{option_map};
ghost use Rattle.std.specs.FinMap as map;
ghost use Rattle.bas_world.specs.Faults.{store_failed};
ghost use Rattle.bas_world.specs.Files.{HasFile, bytes_at, size_of, with_file, without_file, overwritten, read_length};

use crate::copy::copy_from;
use crate::file::FileBytes;
use crate::store::StoreFail;
use bas_base::FileName;
use std::alloc::{AllocError, Global};
use std::collections::BTreeMap;
use std::marker::Model;

// Files in memory, in the order of their names.
#[derive(Debug, Drop)]
pub struct FileTable {
    alloc: Global,
    table: BTreeMap<FileName, FileBytes>,
}

impl Model for FileTable {
    ghost use Rattle.std.specs.FinMap.{from_entries};
    ghost use Rattle.bas_world.specs.Files.{Files};
    ghost use Rattle.bas_world.specs.Memory.{files_code};

    ghost Value = { Files };

    ghost coded = { files_code };

    ghost view = { λ t. from_entries t.table.entries };
}

impl FileTable {
    pub fn new(alloc: Global) -> FileTable
        ensures { result ≡ map.empty }
    {
        FileTable {
            alloc,
            table: BTreeMap::new(alloc),
        }
    }

    pub fn get(&self, name: FileName) -> Option<&[u8]>
        ensures { option_map (λ bytes. bytes.now) result ≡ map.get self.now name }
    {
        match self.table.get(&name) {
            Some(file) => Some(file.bytes()),
            None => None,
        }
    }

    pub fn put(&mut self, name: FileName, bytes: &[u8]) -> Result<(), AllocError>
        ensures ok { OnOk result (self.new ≡ with_file self.old name bytes.now) }
        ensures err { OnErr result (self.new ≡ self.old) }
    {
        let file = FileBytes::of(self.alloc, bytes)?;
        self.table.insert(name, file)?;
        Ok(())
    }

    pub fn make_empty(&mut self, name: FileName) -> Result<(), StoreFail>
        ensures ok { OnOk result (self.new ≡ with_file self.old name []) }
        ensures err { OnErr result (self.new ≡ self.old) }
        ensures failed { store_failed result ≡ false }
    {
        match self.create(name) {
            Ok(()) => Ok(()),
            Err(_) => Err(StoreFail::Memory),
        }
    }

    fn create(&mut self, name: FileName) -> Result<(), AllocError>
        ensures ok { OnOk result (self.new ≡ with_file self.old name []) }
        ensures err { OnErr result (self.new ≡ self.old) }
    {
        let file = FileBytes::empty(self.alloc);
        self.table.insert(name, file)?;
        Ok(())
    }

    pub fn remove(&mut self, name: FileName)
        ensures { self.new ≡ without_file self.old name }
    {
        self.table.remove(&name);
    }

    pub fn size(&self, name: FileName) -> Option<u64>
        ensures { result ≡ size_of self.now name }
    {
        match self.get(name) {
            Some(bytes) => Some(bytes.len() as u64),
            None => None,
        }
    }

    // Writes the bytes at `at`. A place past all memory is as want of memory.
    pub fn store_at(&mut self, name: FileName, at: u64, bytes: &[u8]) -> Result<(), StoreFail>
        requires { HasFile self.old name }
        ensures ok { OnOk result (self.new ≡ with_file self.old name (overwritten (bytes_at self.old name) at bytes.now)) }
        ensures err { OnErr result (self.new ≡ self.old) }
        ensures failed { store_failed result ≡ false }
    {
        match self.write_at(name, at as usize, bytes) {
            Ok(()) => Ok(()),
            Err(_) => Err(StoreFail::Memory),
        }
    }

    fn write_at(&mut self, name: FileName, at: usize, bytes: &[u8]) -> Result<(), AllocError>
        requires { HasFile self.old name }
        ensures ok { OnOk result (self.new ≡ with_file self.old name (overwritten (bytes_at self.old name) at bytes.now)) }
        ensures err { OnErr result (self.new ≡ self.old) }
    {
        match self.table.get_mut(&name) {
            Some(file) => file.write_at(at, bytes)?,
            None => unreachable!(),
        }
        Ok(())
    }

    pub fn cut(&mut self, name: FileName, len: u64)
        requires { HasFile self.old name }
        ensures { self.new ≡ with_file self.old name (take len (bytes_at self.old name)) }
    {
        match self.table.get_mut(&name) {
            Some(file) => file.cut(len as usize),
            None => unreachable!(),
        }
    }

    pub fn read_at(&self, name: FileName, at: u64, buf: &mut [u8]) -> usize
        ensures within { result ≤ length buf.old }
        ensures count { result ≡ read_length (bytes_at self.now name) at (length buf.old) }
        ensures bytes { buf.new ≡ take result (drop at (bytes_at self.now name)) ++ drop result buf.old }
    {
        match self.get(name) {
            Some(bytes) => copy_from(bytes, at, buf),
            None => 0,
        }
    }
}
