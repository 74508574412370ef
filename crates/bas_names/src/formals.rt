//! The formals of a procedure.

ghost use Rattle.std.specs.Prelude.{◌≡◌, List, map, IfOk};
ghost use Rattle.bas_ast.specs.Tree.{NumLine};
ghost use Rattle.bas_ast.specs.PartTree.{formal_tree};
ghost use Rattle.bas_scope.specs.Lines.{gathered};
ghost use Rattle.bas_scope.specs.Scope.{formal_entry, formal_shape as formal_shape_of};
ghost use Rattle.bas_scope.specs.Senses.{shape_written};
ghost use Rattle.bas_names.specs.Tables.{Declares, Puts, options_told};

use crate::declared::Declared;
use crate::entry::{Entry, Table};
use crate::options::UnitOptions;
use crate::shapes::shape_of;
use bas_ast::Formal;
use bas_base::Seq;
use bas_scope::WrittenShape;
use std::alloc::{AllocError, Global};

#[tactic(auto, unfolding(bas_ast::specs::PartTree::formal_tree))]
fn formal_shape(options: UnitOptions, declared: &Declared, formal: Formal) -> WrittenShape
    ensures { (lines : List NumLine) → Declares declared.now lines → shape_written result ≡ formal_shape_of (options_told options) lines (formal_tree formal) }
{
    match formal {
        Formal::Name(name, dimensions) => {
            shape_of(options, name, declared.find(&name), dimensions as usize)
        }
        Formal::Chan(_) => WrittenShape::Channel,
    }
}

/// The shapes of formals, whose types may be declared in their body.
pub fn formal_shapes(
    alloc: Global,
    options: UnitOptions,
    declared: &Declared,
    formals: &[Formal],
) -> Result<Seq<WrittenShape>, AllocError>
    ensures { IfOk result (λ shapes. (lines : List NumLine) → Declares declared.now lines → map shape_written shapes ≡ map (formal_shape_of (options_told options) lines) (map formal_tree formals.now)) }
{
    let mut shapes = Vec::new(alloc);
    for formal in formals {
        shapes.push(formal_shape(options, declared, *formal))?;
    }
    Ok(Seq::of(shapes))
}

#[tactic(auto, unfolding(bas_ast::specs::PartTree::formal_tree))]
fn put_formal(
    table: &mut Table,
    options: UnitOptions,
    declared: &Declared,
    formal: Formal,
) -> Result<(), AllocError>
    ensures { IfOk result (λ _. (lines : List NumLine) → Declares declared.now lines → Puts table.old table.new (formal_entry (options_told options) lines (formal_tree formal))) }
{
    if let Formal::Name(name, _) = formal {
        let shape = formal_shape(options, declared, formal);
        table.put(name, Entry::Variable(shape))?;
    }
    Ok(())
}

/// Puts formals behind what a table has.
pub fn put_formals(
    table: &mut Table,
    options: UnitOptions,
    declared: &Declared,
    formals: &[Formal],
) -> Result<(), AllocError>
    ensures { IfOk result (λ _. (lines : List NumLine) → Declares declared.now lines → Puts table.old table.new (gathered (formal_entry (options_told options) lines) (map formal_tree formals.now))) }
{
    for formal in formals {
        put_formal(table, options, declared, *formal)?;
    }
    Ok(())
}
