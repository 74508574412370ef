//! A table of names.

ghost use Rattle.std.specs.Prelude.{◌≡◌, ℕ, List, [], ◌∷◌, None, IfOk};
ghost use Rattle.std.specs.Option.{option_map};
ghost use Rattle.bas_scope.specs.Scope.{Meaning};
ghost use Rattle.bas_scope.specs.Senses.{sense, sense_told};
ghost use Rattle.bas_names.specs.Names.{entry_sense, found_in};
ghost use Rattle.bas_names.specs.Tables.{Puts};

use crate::behind::put_behind;
use bas_base::{Name, Seq};
use bas_scope::{Sense, WrittenShape};
use std::alloc::{AllocError, Global};
use std::collections::BTreeMap;

/// What a name is. The formals of a procedure of another unit are not known.
#[derive(Debug, Drop)]
pub enum Entry {
    Variable(WrittenShape),
    /// The shapes of its formals.
    Sub(Option<Seq<WrittenShape>>),
    /// The shapes of its formals, and whether its value may be set here.
    Function(Option<Seq<WrittenShape>>, bool),
}

/// Names with what they are, each once. A look-up takes the logarithm of their number.
#[derive(Debug, Drop)]
pub struct Table {
    entries: BTreeMap<Name, Entry>,
}

fn shapes_of(formals: &Option<Seq<WrittenShape>>) -> Option<&[WrittenShape]>
    ensures { option_map (λ f. f.now) result ≡ formals.now }
{
    match formals {
        Some(shapes) => Some(shapes.items()),
        None => None,
    }
}

fn sense_of(entry: &Entry) -> Sense<'_>
    ensures { sense_told result ≡ entry_sense entry.now }
{
    match entry {
        Entry::Variable(shape) => Sense::Variable(*shape),
        Entry::Sub(formals) => Sense::Sub(shapes_of(formals)),
        Entry::Function(formals, set_here) => Sense::Function(shapes_of(formals), *set_here),
    }
}

fn copy_of_formals(
    alloc: Global,
    formals: &Option<Seq<WrittenShape>>,
) -> Result<Option<Seq<WrittenShape>>, AllocError>
    ensures { IfOk result (λ copy. copy ≡ formals.now) }
{
    match formals {
        Some(shapes) => Ok(Some(Seq::of(Vec::from_slice(alloc, shapes.items())?))),
        None => Ok(None),
    }
}

fn copy_of(alloc: Global, entry: &Entry) -> Result<Entry, AllocError>
    ensures { IfOk result (λ copy. copy ≡ entry.now) }
{
    match entry {
        Entry::Variable(shape) => Ok(Entry::Variable(*shape)),
        Entry::Sub(formals) => Ok(Entry::Sub(copy_of_formals(alloc, formals)?)),
        Entry::Function(formals, set_here) => {
            Ok(Entry::Function(copy_of_formals(alloc, formals)?, *set_here))
        }
    }
}

impl Table {
    /// No names.
    pub fn new(alloc: Global) -> Table
        ensures { (name : List ℕ) → found_in result name ≡ None }
    {
        Table {
            entries: BTreeMap::new(alloc),
        }
    }

    /// What a name is, where the table has it.
    pub fn find(&self, name: &Name) -> Option<Sense<'_>>
        ensures { option_map sense_told result ≡ found_in self.now name.now }
    {
        match self.entries.get(name) {
            Some(entry) => Some(sense_of(entry)),
            None => None,
        }
    }

    /// Puts an entry behind those that the table has: the first entry of a name counts.
    pub fn put(&mut self, name: Name, entry: Entry) -> Result<(), AllocError>
        ensures { IfOk result (λ _. (meaning : Meaning) → entry_sense entry ≡ sense meaning → Puts self.old self.new ((name, meaning) ∷ [])) }
    {
        put_behind(&mut self.entries, name, entry)
    }

    /// A copy of what the table has of a name.
    pub fn copy(&self, alloc: Global, name: &Name) -> Result<Option<Entry>, AllocError>
        ensures { IfOk result (λ entry. option_map entry_sense entry ≡ found_in self.now name.now) }
    {
        match self.entries.get(name) {
            Some(entry) => Ok(Some(copy_of(alloc, entry)?)),
            None => Ok(None),
        }
    }
}
