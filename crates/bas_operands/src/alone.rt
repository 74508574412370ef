//! Names that stand by themselves.

ghost use Rattle.std.specs.Prelude.{◌≡◌, Some};
ghost use Rattle.bas_ast.specs.ExpressionTree.{expr_tree, primary_tree};
ghost use Rattle.bas_ast.specs.Accessors.{lone_primary};
ghost use Rattle.bas_operands.specs.Whole.{name_alone};

use bas_ast::{Expr, Primary};
use bas_base::Name;

// The name that an operand is by itself.
#[tactic(auto, using(bas_ast::proofs::ExpressionTrees::expression_trees, crate::proofs::NamesAlone::args_hide))]
fn bare_name(primary: &Primary) -> Option<Name>
    ensures { result ≡ name_alone (Some (primary_tree primary.now)) }
{
    match primary {
        Primary::Name(name, args) => {
            if args.actuals.is_empty() {
                Some(*name)
            } else {
                None
            }
        }
        Primary::Numeral(_) => None,
        Primary::Quoted(_) => None,
        Primary::Group(_) => None,
        Primary::Substring(_, _, _) => None,
    }
}

/// The name that an expression is by itself, or `None` where it is anything else.
pub fn lone_name(expr: &Expr) -> Option<Name>
    ensures { result ≡ name_alone (lone_primary (expr_tree expr.now)) }
{
    bare_name(expr.lone_primary()?)
}
