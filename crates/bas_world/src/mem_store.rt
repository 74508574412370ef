ghost use Rattle.std.specs.Prelude.{◌≡◌, ◌≤◌, ◌++◌, [], length, take, drop, is_ok, not, IfOk, OnOk, OnErr, Some, false};
ghost use Rattle.std.specs.Option.{option_map};
ghost use Rattle.std.specs.FinMap as map;
ghost use Rattle.bas_world.specs.Count.{CountMoves};
ghost use Rattle.bas_world.specs.Faults.{store_failed};
ghost use Rattle.bas_world.specs.Files.{HasFile, bytes_at, size_of, with_file, without_file, overwritten, read_length};
ghost use Rattle.bas_world.specs.Plan.{plan_of, fails_next, after_call};

use crate::NoMemory;
use crate::plan::CallPlan;
use crate::store::{Store, StoreFail};
use crate::table::FileTable;
use bas_base::FileName;
use std::alloc::Global;
use std::marker::Model;

/// A store in memory, of which the calls with the listed numbers fail.
#[derive(Debug, Drop)]
pub struct MemStore {
    table: FileTable,
    calls: CallPlan,
}

impl Model for MemStore {
    ghost use Rattle.bas_world.specs.Memory.{StoreState, store_code};

    ghost Value = { StoreState };

    ghost coded = { store_code };

    ghost view = { λ s. record { files = s.table; plan = s.calls } };
}

impl MemStore {
    /// An empty store. `fails` are the numbers of the calls that fail, of which the first is 1. It
    /// takes no memory.
    pub fn new(alloc: Global, fails: Vec<u64>) -> MemStore
        ensures { result ≡ record { files = map.empty; plan = plan_of fails.items } }
    {
        MemStore {
            table: FileTable::new(alloc),
            calls: CallPlan::new(fails),
        }
    }

    /// Puts a file into the store, over one of that name. This is no call of the store's that is
    /// counted or fails, except for want of memory.
    pub fn put(&mut self, name: FileName, bytes: &[u8]) -> Result<(), NoMemory>
        ensures ok { OnOk result (self.new ≡ record self.old { files = with_file self.old.files name bytes.now }) }
        ensures err { OnErr result (self.new ≡ self.old) }
    {
        self.table.put(name, bytes)
    }

    /// The bytes of a file, or `None` where there is none. It takes no memory.
    pub fn get(&self, name: FileName) -> Option<&[u8]>
        ensures { option_map (λ bytes. bytes.now) result ≡ map.get self.now.files name }
    {
        self.table.get(name)
    }

    /// How many calls of the store's there were, or `2^64 - 1` where there were more.
    pub fn calls(&self) -> u64
        ensures { result ≡ self.now.plan.calls }
    {
        self.calls.calls()
    }
}

/// A call fails exactly where its number is listed, and then leaves the files as they were.
impl Store for MemStore {
    ghost files = { λ s. Some s.files };

    ghost faults = { λ s. s.plan.faults };

    ghost longest = { λ _. 68 };

    fn size(&mut self, name: FileName) -> Result<Option<u64>, StoreFail>
        ensures size { IfOk result (λ size. size ≡ size_of self.old.files name) }
        ensures answered { is_ok result ≡ not (fails_next self.old.plan) }
        ensures failed { store_failed result ≡ fails_next self.old.plan }
        ensures state { self.new ≡ record self.old { plan = after_call self.old.plan } }
        ensures counted { CountMoves (store_failed result) self.old.plan.faults self.new.plan.faults }
    {
        if self.calls.begin_call() {
            return Err(StoreFail::Failed);
        }
        Ok(self.table.size(name))
    }

    fn read_at(&mut self, name: FileName, at: u64, buf: &mut [u8]) -> Result<usize, StoreFail>
        ensures within { IfOk result (λ count. count ≤ length buf.old) }
        ensures count { IfOk result (λ count. count ≡ read_length (bytes_at self.old.files name) at (length buf.old)) }
        ensures bytes { IfOk result (λ count. buf.new ≡ take count (drop at (bytes_at self.old.files name)) ++ drop count buf.old) }
        ensures answered { is_ok result ≡ not (fails_next self.old.plan) }
        ensures failed { store_failed result ≡ fails_next self.old.plan }
        ensures state { self.new ≡ record self.old { plan = after_call self.old.plan } }
        ensures counted { CountMoves (store_failed result) self.old.plan.faults self.new.plan.faults }
    {
        if self.calls.begin_call() {
            return Err(StoreFail::Failed);
        }
        Ok(self.table.read_at(name, at, buf))
    }

    fn write_at(&mut self, name: FileName, at: u64, bytes: &[u8]) -> Result<(), StoreFail>
        requires { HasFile self.old.files name }
        ensures ok { OnOk result (self.new.files ≡ with_file self.old.files name (overwritten (bytes_at self.old.files name) at bytes.now)) }
        ensures err { OnErr result (self.new.files ≡ self.old.files) }
        ensures failed { store_failed result ≡ fails_next self.old.plan }
        ensures plan { self.new.plan ≡ after_call self.old.plan }
        ensures counted { CountMoves (store_failed result) self.old.plan.faults self.new.plan.faults }
    {
        if self.calls.begin_call() {
            return Err(StoreFail::Failed);
        }
        self.table.store_at(name, at, bytes)
    }

    fn cut(&mut self, name: FileName, len: u64) -> Result<(), StoreFail>
        requires there { HasFile self.old.files name }
        requires within { len ≤ length (bytes_at self.old.files name) }
        ensures ok { OnOk result (self.new.files ≡ with_file self.old.files name (take len (bytes_at self.old.files name))) }
        ensures err { OnErr result (self.new.files ≡ self.old.files) }
        ensures answered { is_ok result ≡ not (fails_next self.old.plan) }
        ensures failed { store_failed result ≡ fails_next self.old.plan }
        ensures plan { self.new.plan ≡ after_call self.old.plan }
        ensures counted { CountMoves (store_failed result) self.old.plan.faults self.new.plan.faults }
    {
        if self.calls.begin_call() {
            return Err(StoreFail::Failed);
        }
        self.table.cut(name, len);
        Ok(())
    }

    fn create(&mut self, name: FileName) -> Result<(), StoreFail>
        ensures ok { OnOk result (self.new.files ≡ with_file self.old.files name []) }
        ensures err { OnErr result (self.new.files ≡ self.old.files) }
        ensures failed { store_failed result ≡ fails_next self.old.plan }
        ensures plan { self.new.plan ≡ after_call self.old.plan }
        ensures counted { CountMoves (store_failed result) self.old.plan.faults self.new.plan.faults }
    {
        if self.calls.begin_call() {
            return Err(StoreFail::Failed);
        }
        self.table.make_empty(name)
    }

    fn remove(&mut self, name: FileName) -> Result<(), StoreFail>
        ensures ok { OnOk result (self.new.files ≡ without_file self.old.files name) }
        ensures err { OnErr result (self.new.files ≡ self.old.files) }
        ensures answered { is_ok result ≡ not (fails_next self.old.plan) }
        ensures failed { store_failed result ≡ fails_next self.old.plan }
        ensures plan { self.new.plan ≡ after_call self.old.plan }
        ensures counted { CountMoves (store_failed result) self.old.plan.faults self.new.plan.faults }
    {
        if self.calls.begin_call() {
            return Err(StoreFail::Failed);
        }
        self.table.remove(name);
        Ok(())
    }
}
