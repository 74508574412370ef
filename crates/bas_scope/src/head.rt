//! The first line of a body.

ghost use Rattle.std.specs.Prelude.{◌≡◌, map};
ghost use Rattle.bas_ast.specs.BlockTree.{item_tree};
ghost use Rattle.bas_ast.specs.PartTree.{formal_tree};
ghost use Rattle.bas_scope.specs.Scope.{formals_on as formals_of_line, procedure_on as procedure_of_line};

use bas_ast::{Formal, LineItem, Part};
use bas_base::Name;
use bas_face::CallKind;

/// The formals on the first line of a body.
#[tactic(auto, unfolding(bas_ast::specs::BlockTree::item_tree, bas_ast::specs::PartTree::part_tree))]
pub fn formals_on(item: &LineItem) -> &[Formal]
    ensures { map formal_tree result.now ≡ formals_of_line (item_tree item.now) }
{
    match item {
        LineItem::Part(part) => match part.get() {
            Part::Sub(_, formals)
            | Part::Function(_, formals)
            | Part::ExternalSub(_, formals)
            | Part::ExternalFunction(_, formals)
            | Part::Def(_, formals, _)
            | Part::Program(_, formals) => formals.formals.items(),
            _ => &[],
        },
        _ => &[],
    }
}

/// The name and the kind of the procedure that a line begins.
#[tactic(auto, unfolding(bas_ast::specs::BlockTree::item_tree, bas_ast::specs::PartTree::part_tree))]
pub fn procedure_on(item: &LineItem) -> Option<(Name, CallKind)>
    ensures { result ≡ procedure_of_line (item_tree item.now) }
{
    match item {
        LineItem::Part(part) => match part.get() {
            Part::Sub(name, _) | Part::ExternalSub(name, _) => Some((*name, CallKind::Sub)),
            Part::Function(name, _) | Part::ExternalFunction(name, _) | Part::Def(name, _, _) =>
                Some((*name, CallKind::Function)),
            _ => None,
        },
        _ => None,
    }
}
