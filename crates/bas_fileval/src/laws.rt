//! Laws of the plain values, for proofs alone: each function states equations and does nothing.

ghost use Rattle.std.specs.Prelude.{◌≡◌, ℕ, List, [], pos};
ghost use Rattle.bas_dec.specs.Number.{Number};
ghost use Rattle.bas_fileval.specs.Kind as kind;
ghost use Rattle.bas_fileval.specs.Value.{unset, kind_of};
ghost use Rattle.bas_fileval.specs.Value as value;
ghost use Rattle.bas_fileval.specs.Plain.{plain_kind, plain_value};
ghost use Rattle.bas_fileval.specs.declared.value.Kind.TheVariants as rust_kind;
ghost use Rattle.bas_fileval.specs.declared.value.Value.TheVariants as rust_value;

/// The plain value of each variant is its own constructor with the same content.
pub fn plain_values()
    ensures number_kind { plain_kind rust_kind.Number ≡ kind.Number }
    ensures text_kind { plain_kind rust_kind.Text ≡ kind.Text }
    ensures number { (x : Number) → plain_value (rust_value.Num x) ≡ value.Num x }
    ensures text { (bytes : List ℕ) → plain_value (rust_value.Text bytes) ≡ value.Text bytes }
{}

/// What is unset is 0 or the empty string, and has its kind.
pub fn unset_values()
    ensures number { unset kind.Number ≡ value.Num (record { coefficient = pos 0; scale = 0 }) }
    ensures text { unset kind.Text ≡ value.Text [] }
    ensures same_kind { (k : kind.Kind) → kind_of (unset k) ≡ k }
{}
