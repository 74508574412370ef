//! The live cells of a run.

ghost use Rattle.std.specs.Prelude.{◌≡◌, true, ℕ, ◌<◌, ◌++◌, ◌∷◌, [], length, take, is_ok, if◌then◌else◌, IfOk, IfSome, IsOk};
ghost use Rattle.std.specs.Option.{option_map};
ghost use Rattle.std.specs.Result.{result_err};
ghost use Rattle.bas_fileval.specs.Kind as kinds;
ghost use Rattle.bas_fileval.specs.Value.{kind_of};
ghost use Rattle.bas_fileval.specs.Plain.{plain_value};
ghost use Rattle.bas_cell.specs.Bounds.{element_number};
ghost use Rattle.bas_cell.specs.Holding.{kind_held, held};
ghost use Rattle.bas_cell.specs.Live.{can_be_made, fresh, bounds_of, dimension_bounds, Place, IsPlace, cell_at, shape_at, value_at, stored_at};

use crate::fault::StoreFault;
use crate::reference::Ref;
use crate::variable::Variable;
use bas_face::Cell;
use bas_fileval::Value;
use std::alloc::{AllocError, Global};
use std::marker::Model;

/// The live cells of a run, numbered from 0 in the order in which they were made. Contracts see the
/// list of them, each with its shape, its bounds and its values.
#[derive(Debug, Drop)]
pub struct Cells {
    cells: Vec<Variable>,
}

impl Model for Cells {
    ghost use Rattle.std.specs.Prelude.{List};
    ghost use Rattle.bas_cell.specs.Live.{Live};

    ghost Value = { List Live };

    ghost view = { λ s. s.cells.items };
}

impl Cells {
    /// No cells. It takes no memory.
    pub fn new(alloc: Global) -> Cells
        ensures { result ≡ [] }
    {
        Cells {
            cells: Vec::new(alloc),
        }
    }

    /// Makes a cell at the end, with numbers of 0 or empty strings, and gives its number. An array is
    /// made in time in proportion to its elements. Where there is no memory, the cells stay.
    #[tactic(auto, using(crate::proofs::Places::stays_made))]
    pub fn make(&mut self, alloc: Global, c: &Cell) -> Result<u32, AllocError>
        requires room { length self.old < u32.MAX }
        requires sound { can_be_made c.now ≡ true }
        ensures number { IfOk result (λ n. n ≡ length self.old) }
        ensures cells { self.new ≡ (if is_ok result then self.old ++ fresh c.now ∷ [] else self.old) }
        ensures stays { (p : Place) → IsPlace self.old p → IsPlace self.new p }
    {
        let number = self.cells.len() as u32;
        let made = Variable::fresh(alloc, c)?;
        self.cells.push(made)?;
        Ok(number)
    }

    /// Drops the cells from that number on, and keeps those before it. It takes time in proportion to
    /// what is dropped.
    #[tactic(auto, using(crate::proofs::Places::stays_dropped))]
    pub fn drop_from(&mut self, first: u32)
        ensures cells { self.new ≡ take first self.old }
        ensures stays { (p : Place) → p.cell < first → IsPlace self.old p → IsPlace self.new p }
    {
        self.cells.truncate(first as usize);
    }

    /// A copy of the value that the reference refers to: the last one that was written there through
    /// any reference, or else 0 or the empty string. A number takes constant time and no memory, and a
    /// string time in proportion to its bytes.
    pub fn read(&self, alloc: Global, r: Ref) -> Result<Value, AllocError>
        requires { IsPlace self.now r }
        ensures same { IfOk result (λ v. plain_value v ≡ value_at self.now r) }
        ensures kind { IfOk result (λ v. kind_of (plain_value v) ≡ kind_held (shape_at self.now r)) }
        ensures number { kind_held (shape_at self.now r) ≡ kinds.Number → IsOk result }
    {
        self.cells[r.cell() as usize].read(alloc, r.at())
    }

    /// Stores the value at the place that the reference refers to, a number rounded to the type of its
    /// cell. Where it does not fit, every value stays, and the fault is the exception: 1010 for a number
    /// that is too large for the type, and 1106 for a string that is too long. It takes constant time and
    /// no memory.
    #[tactic(auto, using(crate::proofs::Places::stays_stored, crate::proofs::Places::count_stays, crate::proofs::Places::shapes_stay))]
    pub fn write(&mut self, r: Ref, v: Value) -> Result<(), StoreFault>
        requires place { IsPlace self.old r }
        requires kind { kind_of (plain_value v) ≡ kind_held (shape_at self.old r) }
        ensures stored { self.new ≡ stored_at self.old r (held (shape_at self.old r) (plain_value v)) }
        ensures raises { result_err result ≡ option_map StoreFault.Ex (result_err (held (shape_at self.old r) (plain_value v))) }
        ensures count { length self.new ≡ length self.old }
        ensures shapes { (n : ℕ) → (cell_at self.new n).cell ≡ (cell_at self.old n).cell }
        ensures stays { (p : Place) → IsPlace self.old p → IsPlace self.new p }
    {
        let cell = &mut self.cells[r.cell() as usize];
        cell.write(r.at(), v).map_err(StoreFault::Ex)
    }

    /// A reference to a variable, or to an array as a whole.
    pub fn whole(&self, cell: u32) -> Ref
        requires { cell < length self.now }
        ensures place { result ≡ record { cell = cell; at = 0 } }
        ensures there { IsPlace self.now result }
    {
        Ref::of(cell, self.cells[cell as usize].first())
    }

    /// A reference to an element of an array, or `None` exactly where there are not as many subscripts
    /// as dimensions or one is outside its bounds. A scalar has no dimension. It takes constant time.
    pub fn element(&self, cell: u32, at: &[i64]) -> Option<Ref>
        requires { cell < length self.now }
        ensures place { result ≡ option_map (λ n. record { cell = cell; at = n }) (element_number (bounds_of (cell_at self.now cell).cell) at.now) }
        ensures there { IfSome result (λ r. IsPlace self.now r) }
        ensures same_cell { IfSome result (λ r. r.cell ≡ cell) }
    {
        let number = self.cells[cell as usize].element(at)?;
        Some(Ref::of(cell, number))
    }

    /// The lower and the upper bound of the `k`-th dimension of an array, counted from 1, or `None`
    /// exactly where it has none.
    pub fn bound(&self, cell: u32, k: i64) -> Option<(i32, i32)>
        requires { cell < length self.now }
        ensures { result ≡ dimension_bounds (cell_at self.now cell).cell k }
    {
        self.cells[cell as usize].bound(k)
    }
}
