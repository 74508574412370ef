//! The least rule that the body of a definition breaks at its operands.

ghost use Rattle.std.specs.Prelude.{◌≡◌, [], ◌∷◌};
ghost use Rattle.bas_ast.specs.Tree.{Alone, Let, NoExprs, OfSimple, Variable};
ghost use Rattle.bas_ast.specs.ExpressionTree.{expr_tree};
ghost use Rattle.bas_scope.specs.Nodes.{item_nodes};
ghost use Rattle.bas_names.specs.Names.{senses_in};
ghost use Rattle.bas_operands.specs.Operands.{nodes_fault};

use crate::broken::least;
use crate::expression::expr_fault;
use crate::node::bare_target_fault;
use bas_ast::Expr;
use bas_base::Name;
use bas_names::Names;

/// The least of the rules on expressions, operands and targets that is broken in the body of a
/// definition, which sets its name to its value, by what the names of that body are.
pub fn definition_fault(names: &Names<'_>, name: Name, value: &Expr) -> Option<u8>
    ensures { result ≡ nodes_fault (senses_in names.now) (item_nodes (OfSimple (Alone (Let (Variable name NoExprs ∷ []) (expr_tree value.now))))) }
{
    least(bare_target_fault(names, name), expr_fault(names, value))
}
