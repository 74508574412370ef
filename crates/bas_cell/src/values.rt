//! The values of one cell, all of one kind.

ghost use Rattle.std.specs.Prelude.{◌≡◌, ◌<◌, pos, [], ◌∷◌, map, length, replicate, slice_set, IfOk, IsOk};
ghost use Rattle.bas_fileval.specs.Kind as kinds;
ghost use Rattle.bas_fileval.specs.Value as value;
ghost use Rattle.bas_fileval.specs.Plain.{plain_kind, plain_value};
ghost use Rattle.bas_cell.specs.Live.{value_in};
ghost use Rattle.bas_cell.specs.Stored.{plain_values, kind_of_all};

use bas_dec::Dec;
use bas_fileval::{Kind, Value};
use bas_text::StrVal;
use std::alloc::{AllocError, Global};

/// The values of one cell, of one kind: one value in place, or a block of them.
#[derive(Debug, Drop)]
pub(crate) enum Values {
    Number(Dec),
    Text(StrVal),
    Numbers(Vec<Dec>),
    Texts(Vec<StrVal>),
}

impl Values {
    /// So many numbers of 0, or empty strings. One value takes no memory.
    pub(crate) fn unset(alloc: Global, kind: Kind, count: usize) -> Result<Values, AllocError>
        ensures values { IfOk result (λ made. plain_values made ≡ replicate count (value.unset (plain_kind kind))) }
        ensures kind { IfOk result (λ made. kind_of_all made ≡ plain_kind kind) }
        ensures one { count ≡ 1 → IsOk result }
    {
        if count == 1 {
            return Ok(Values::one(alloc, kind));
        }
        match kind {
            Kind::Number => Ok(Values::Numbers(zeros(alloc, count)?)),
            Kind::Text => Ok(Values::Texts(empty_strings(alloc, count)?)),
        }
    }

    fn one(alloc: Global, kind: Kind) -> Values
        ensures values { plain_values result ≡ value.unset (plain_kind kind) ∷ [] }
        ensures kind { kind_of_all result ≡ plain_kind kind }
    {
        match kind {
            Kind::Number => Values::Number(zero()),
            Kind::Text => Values::Text(empty_string(alloc)),
        }
    }

    /// A copy of the value at that place, counted from 0.
    #[tactic(auto, using(crate::proofs::Fresh::only_value))]
    pub(crate) fn read(&self, alloc: Global, at: usize) -> Result<Value, AllocError>
        requires { at < length (plain_values self.now) }
        ensures same { IfOk result (λ v. plain_value v ≡ value_in (plain_values self.now) at) }
        ensures kind { IfOk result (λ v. value.kind_of (plain_value v) ≡ kind_of_all self.now) }
        ensures number { kind_of_all self.now ≡ kinds.Number → IsOk result }
    {
        match self {
            Values::Number(x) => Ok(Value::Num(*x)),
            Values::Text(text) => Ok(Value::Text(copied(alloc, text)?)),
            Values::Numbers(numbers) => Ok(Value::Num(numbers[at])),
            Values::Texts(texts) => Ok(Value::Text(copied(alloc, &texts[at])?)),
        }
    }

    /// Puts a number at that place. The values are numbers.
    #[tactic(auto, using(crate::proofs::Fresh::only_put))]
    pub(crate) fn put_number(&mut self, at: usize, x: Dec)
        requires inside { at < length (plain_values self.old) }
        requires kind { kind_of_all self.old ≡ kinds.Number }
        ensures values { plain_values self.new ≡ slice_set (plain_values self.old) at (value.Num x) }
        ensures kind { kind_of_all self.new ≡ kind_of_all self.old }
    {
        match self {
            Values::Number(held) => *held = x,
            Values::Numbers(numbers) => numbers[at] = x,
            Values::Text(_) | Values::Texts(_) => {}
        }
    }

    /// Puts a string at that place. The values are strings.
    #[tactic(auto, using(crate::proofs::Fresh::only_put))]
    pub(crate) fn put_text(&mut self, at: usize, text: StrVal)
        requires inside { at < length (plain_values self.old) }
        requires kind { kind_of_all self.old ≡ kinds.Text }
        ensures values { plain_values self.new ≡ slice_set (plain_values self.old) at (value.Text text) }
        ensures kind { kind_of_all self.new ≡ kind_of_all self.old }
    {
        match self {
            Values::Text(held) => *held = text,
            Values::Texts(texts) => texts[at] = text,
            Values::Number(_) | Values::Numbers(_) => {}
        }
    }
}

#[tactic(auto, using(crate::proofs::Fresh::zero_low))]
fn zero() -> Dec
    ensures { result ≡ record { coefficient = pos 0; scale = 0 } }
{
    Dec::of_parts(0, 0).unwrap()
}

#[tactic(auto, using(crate::proofs::Fresh::numbers_unset))]
fn zeros(alloc: Global, count: usize) -> Result<Vec<Dec>, AllocError>
    ensures { IfOk result (λ made. map value.Num made.items ≡ replicate count (value.unset kinds.Number)) }
{
    vec![in alloc; zero(); count]
}

fn empty_string(alloc: Global) -> StrVal
    ensures { result ≡ [] }
{
    StrVal::of(alloc, b"").unwrap()
}

#[tactic(auto, using(crate::proofs::Fresh::texts_unset, std::proofs::lemmas::List::replicate_more))]
fn empty_strings(alloc: Global, count: usize) -> Result<Vec<StrVal>, AllocError>
    ensures { IfOk result (λ made. map value.Text made.items ≡ replicate count (value.unset kinds.Text)) }
{
    let mut made = Vec::with_capacity(alloc, count)?;
    for _ in 0..count {
        made.push(empty_string(alloc))?;
    }
    Ok(made)
}

/// The same string once more. It has no more bytes than a string may have, so want of memory is the
/// only fault.
fn copied(alloc: Global, text: &StrVal) -> Result<StrVal, AllocError>
    ensures { IfOk result (λ copy. copy ≡ text.now) }
{
    StrVal::of(alloc, text.bytes()).map_err(|_| AllocError)
}
