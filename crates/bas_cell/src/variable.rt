//! One live cell with its values.

ghost use Rattle.std.specs.Prelude.{◌≡◌, true, ◌<◌, length, IfOk, IfSome, IsOk};
ghost use Rattle.std.specs.Result.{result_err};
ghost use Rattle.bas_fileval.specs.Kind as kinds;
ghost use Rattle.bas_fileval.specs.Value as value;
ghost use Rattle.bas_fileval.specs.Plain.{plain_value};
ghost use Rattle.bas_cell.specs.Bounds.{element_number};
ghost use Rattle.bas_cell.specs.Holding.{kind_held, held};
ghost use Rattle.bas_cell.specs.Live.{can_be_made, fresh, bounds_of, dimension_bounds, value_in, after_store};

use crate::bounds::{element_number, elements};
use crate::holding::{bounds_of, kind_held, longest_text, number_held, number_type};
use crate::values::Values;
use bas_base::Ex;
use bas_dec::Dec;
use bas_face::Cell;
use bas_fileval::Value;
use bas_text::StrVal;
use std::alloc::{AllocError, Global};
use std::marker::Model;

/// A live cell: how it was declared, and a value for each of its elements. A scalar has one.
#[derive(Debug, Drop)]
pub(crate) struct Variable {
    cell: Cell,
    values: Values,
}

impl Model for Variable {
    ghost use Rattle.bas_cell.specs.Live.{Live};
    ghost use Rattle.bas_cell.specs.Stored.{plain_values, IsFilled};

    ghost Value = { Live };

    ghost view = { λ s. record { cell = s.cell; values = plain_values s.values } };

    ghost invariant = { λ s. IsFilled s.cell s.values };
}

impl Variable {
    /// A cell with numbers of 0 or empty strings.
    #[tactic(auto, using(crate::proofs::Elements::bounds_made))]
    pub(crate) fn fresh(alloc: Global, cell: &Cell) -> Result<Variable, AllocError>
        requires { can_be_made cell.now ≡ true }
        ensures { IfOk result (λ made. made ≡ fresh cell.now) }
    {
        let count = elements(bounds_of(cell));
        let values = Values::unset(alloc, kind_held(cell.shape), count as usize)?;
        Ok(Variable {
            cell: *cell,
            values,
        })
    }

    /// A copy of the value of that number.
    pub(crate) fn read(&self, alloc: Global, at: u32) -> Result<Value, AllocError>
        requires { at < length self.now.values }
        ensures same { IfOk result (λ v. plain_value v ≡ value_in self.now.values at) }
        ensures kind { IfOk result (λ v. value.kind_of (plain_value v) ≡ kind_held self.now.cell.shape) }
        ensures number { kind_held self.now.cell.shape ≡ kinds.Number → IsOk result }
    {
        self.values.read(alloc, at as usize)
    }

    /// Stores the value, a number rounded to its type. It takes no memory.
    pub(crate) fn write(&mut self, at: u32, v: Value) -> Result<(), Ex>
        requires inside { at < length self.old.values }
        requires kind { value.kind_of (plain_value v) ≡ kind_held self.old.cell.shape }
        ensures stored { self.new ≡ after_store self.old at (held self.old.cell.shape (plain_value v)) }
        ensures raises { result_err result ≡ result_err (held self.old.cell.shape (plain_value v)) }
    {
        match v {
            Value::Num(x) => self.write_number(at, x),
            Value::Text(text) => self.write_text(at, text),
        }
    }

    fn write_number(&mut self, at: u32, x: Dec) -> Result<(), Ex>
        requires inside { at < length self.old.values }
        requires kind { kinds.Number ≡ kind_held self.old.cell.shape }
        ensures stored { self.new ≡ after_store self.old at (held self.old.cell.shape (value.Num x)) }
        ensures raises { result_err result ≡ result_err (held self.old.cell.shape (value.Num x)) }
    {
        let x = number_held(number_type(self.cell.shape), x)?;
        self.values.put_number(at as usize, x);
        Ok(())
    }

    fn write_text(&mut self, at: u32, text: StrVal) -> Result<(), Ex>
        requires inside { at < length self.old.values }
        requires kind { kinds.Text ≡ kind_held self.old.cell.shape }
        ensures stored { self.new ≡ after_store self.old at (held self.old.cell.shape (value.Text text)) }
        ensures raises { result_err result ≡ result_err (held self.old.cell.shape (value.Text text)) }
    {
        if text.bytes().len() > longest_text(self.cell.shape) {
            return Err(Ex(1106));
        }
        self.values.put_text(at as usize, text);
        Ok(())
    }

    /// The number of the value of a scalar, and of the first element of an array.
    #[tactic(auto, using(crate::proofs::Elements::filled_some))]
    pub(crate) fn first(&self) -> u32
        ensures value { result ≡ 0 }
        ensures inside { result < length self.now.values }
    {
        let _ = &self.values;
        0
    }

    /// The number of an element, or `None` outside the bounds or dimensions.
    #[tactic(auto, using(crate::proofs::Elements::bounds_made))]
    pub(crate) fn element(&self, at: &[i64]) -> Option<u32>
        ensures number { result ≡ element_number (bounds_of self.now.cell) at.now }
        ensures inside { IfSome result (λ n. n < length self.now.values) }
    {
        element_number(bounds_of(&self.cell), at)
    }

    /// The bounds of the dimension of that number, counted from 1, or `None` where there is none.
    pub(crate) fn bound(&self, k: i64) -> Option<(i32, i32)>
        ensures { result ≡ dimension_bounds self.now.cell k }
    {
        if k < 1 {
            return None;
        }
        let number = k.unsigned_abs() as usize;
        bounds_of(&self.cell).get(number - 1).copied()
    }
}
