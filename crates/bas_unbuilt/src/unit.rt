//! The first line of a file that is not built.

ghost use Rattle.std.specs.Prelude.{◌≡◌, map};
ghost use Rattle.std.specs.Option.{option_map};
ghost use Rattle.bas_ast.specs.BlockTree.{line_tree};
ghost use Rattle.bas_ast.specs.UnitTree.{unit_tree, program_tree};
ghost use Rattle.bas_unbuilt.specs.Unbuilt as unbuilt;

use crate::block::{line_of_block, unbuilt_in_block, unless_built};
use crate::line::{is_built_program_line, is_end};
use bas_ast::{NumLine, Program, Unit};
use bas_base::Line;

fn line_of_head(head: &Option<NumLine>) -> Option<Line>
    ensures { result ≡ unbuilt.line_of_head (option_map line_tree head.now) }
{
    match head {
        Some(head) => Some(head.line),
        None => None,
    }
}

fn unbuilt_in_head(head: &Option<NumLine>) -> Option<Line>
    ensures { result ≡ unbuilt.unbuilt_in_head (option_map line_tree head.now) }
{
    match head {
        Some(head) => unless_built(is_built_program_line(&head.item), head.line),
        None => None,
    }
}

fn unbuilt_in_program(program: &Program) -> Option<Line>
    ensures { result ≡ unbuilt.unbuilt_in_program (program_tree program.now) }
{
    match unbuilt_in_head(&program.head) {
        Some(line) => Some(line),
        None => match unbuilt_in_block(&program.body) {
            Some(line) => Some(line),
            None => unless_built(is_end(&program.end.item), program.end.line),
        },
    }
}

fn line_of_program(program: &Program) -> Option<Line>
    ensures { result ≡ unbuilt.line_of_program (program_tree program.now) }
{
    match line_of_head(&program.head) {
        Some(line) => Some(line),
        None => match line_of_block(&program.body) {
            Some(line) => Some(line),
            None => Some(program.end.line),
        },
    }
}

#[tactic(auto, unfolding(bas_ast::specs::UnitTree::unit_tree))]
fn unbuilt_in_unit(unit: &Unit) -> Option<Line>
    ensures { result ≡ unbuilt.unbuilt_in_unit (unit_tree unit.now) }
{
    match unit {
        Unit::Program(program) => unbuilt_in_program(program),
        Unit::Procedure(procedure) => Some(procedure.head.line),
        Unit::Module(module) => Some(module.head.line),
    }
}

#[tactic(auto, unfolding(bas_ast::specs::UnitTree::unit_tree))]
fn line_of_unit(unit: &Unit) -> Option<Line>
    ensures { result ≡ unbuilt.line_of_unit (unit_tree unit.now) }
{
    match unit {
        Unit::Program(program) => line_of_program(program),
        Unit::Procedure(procedure) => Some(procedure.head.line),
        Unit::Module(module) => Some(module.head.line),
    }
}

fn line_of_next(rest: &[Unit]) -> Option<Line>
    ensures { result ≡ unbuilt.line_of_next (map unit_tree rest.now) }
{
    match rest.first() {
        Some(unit) => line_of_unit(unit),
        None => None,
    }
}

/// The first line of a file that has a construct which is not built.
pub fn unbuilt_line(units: &[Unit]) -> Option<Line>
    ensures { result ≡ unbuilt.unbuilt_line (map unit_tree units.now) }
{
    match units {
        [] => None,
        [first, rest @ ..] => match unbuilt_in_unit(first) {
            Some(line) => Some(line),
            None => line_of_next(rest),
        },
    }
}
