ghost use Rattle.std.specs.Prelude.{◌≡◌, ◌≤◌, [], ◌∷◌, length};
ghost use Rattle.bas_mean.specs.World.{OfName};
ghost use Rattle.bas_carry.specs.Slots.{index_of, with_variables};
ghost use Rattle.bas_genexpr.specs.Numbering.{variables, slot_limit, Numbers};

use crate::fault::GenFault;
use bas_base::Name;
use std::alloc::Global;
use std::collections::BTreeMap;
use std::marker::Model;

/// How many slots a body may have.
pub const SLOT_LIMIT: u16 = 4096;

/// The names of a body's variables in the order of their slots, each once.
#[derive(Debug, Drop)]
pub struct Slots {
    names: Vec<Name>,
    numbers: BTreeMap<Name, u16>,
}

impl Model for Slots {
    ghost use Rattle.std.specs.Prelude.{◌≡◌, ◌≤◌, ℕ, List, length};
    ghost use Rattle.std.specs.Ordering.{nat_cmp};
    ghost use Rattle.std.specs.Cmp.Lexicographic.{slice_cmp};
    ghost use Rattle.std.specs.BTreeMap.{get};
    ghost use Rattle.bas_mean.specs.World.{OfName};
    ghost use Rattle.bas_carry.specs.Slots.{index_of};
    ghost use Rattle.bas_genexpr.specs.Numbering.{variables, slot_limit};

    ghost Value = { List (List ℕ) };

    ghost view = { λ slots. slots.names.items };

    ghost invariant = { λ slots. (length slots.names.items ≤ slot_limit) × ((name : List ℕ) → get (slice_cmp nat_cmp) slots.numbers name ≡ index_of (variables slots.names.items) (OfName name)) };
}

impl Slots {
    /// No slots.
    pub fn new(alloc: Global) -> Slots
        ensures { result ≡ [] }
    {
        Slots {
            names: Vec::new(alloc),
            numbers: BTreeMap::new(alloc),
        }
    }

    /// How many slots there are.
    pub fn count(&self) -> u16
        ensures same { result ≡ length self.now }
        ensures within { result ≤ slot_limit }
    {
        self.names.len() as u16
    }

    /// The slot of a name, or `None` where it has none.
    pub fn number(&self, name: &Name) -> Option<u16>
        ensures { result ≡ index_of (variables self.now) (OfName name.now) }
    {
        self.numbers.get(name).copied()
    }

    /// Gives the name the next slot where it has none.
    pub fn add(&mut self, name: Name) -> Result<(), GenFault>
        ensures { Numbers result self.old self.new (OfName name ∷ []) }
    {
        if self.number(&name).is_some() {
            return Ok(());
        }
        let count = self.names.len();
        if count >= SLOT_LIMIT as usize {
            return Err(GenFault::TooLarge {
                size: u32::from(SLOT_LIMIT) + 1,
                limit: u32::from(SLOT_LIMIT),
            });
        }
        self.names.push(name)?;
        match self.numbers.insert(name, count as u16) {
            Ok(_) => Ok(()),
            Err(_) => {
                let _ = self.names.pop();
                Err(GenFault::Memory)
            }
        }
    }
}
