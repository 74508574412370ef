//! The names of a body, by the tables of its unit and its own.

ghost use Rattle.std.specs.Prelude.{◌≡◌, []};
ghost use Rattle.bas_scope.specs.Scope.{Home, Inner, Outer, Table as Entries, inner_names};
ghost use Rattle.bas_scope.specs.Senses.{senses_of};
ghost use Rattle.bas_names.specs.Names.{senses_in};
ghost use Rattle.bas_names.specs.Tables.{Has, HasBefore, HasOuter};

use crate::entry::Table;
use crate::names::Names;
use crate::unit_names::UnitNames;

/// The names of a program, an external procedure or an initial part.
pub fn container_names<'a>(unit: &'a UnitNames, container: &'a Table) -> Names<'a>
    ensures { (outer : Outer) (entries : Entries) (home : Home) → HasOuter unit.now outer → HasBefore container.now unit.now.variables entries
        → senses_in result ≡ senses_of (record { outer = outer; names = entries; home = home }) }
{
    Names {
        inner: None,
        container,
        variables: &unit.variables,
        procedures: &unit.procedures,
        numbers: unit.options.numbers,
    }
}

/// The names of an internal procedure: its own go before those of its container.
pub fn internal_names<'a>(unit: &'a UnitNames, container: &'a Table, inner: &'a Table) -> Names<'a>
    ensures { (outer : Outer) (entries : Entries) (procedure : Inner) (home : Home) → HasOuter unit.now outer → HasBefore container.now unit.now.variables entries → Has inner.now (inner_names outer.options procedure [])
        → senses_in result ≡ senses_of (record { outer = outer; names = inner_names outer.options procedure entries; home = home }) }
{
    Names {
        inner: Some(inner),
        container,
        variables: &unit.variables,
        procedures: &unit.procedures,
        numbers: unit.options.numbers,
    }
}
