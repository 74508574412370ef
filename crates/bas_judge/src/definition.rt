//! The least rule that the body of a definition breaks.

ghost use Rattle.std.specs.Prelude.{◌≡◌, [], ◌∷◌, not, IfOk};
ghost use Rattle.bas_ast.specs.ExpressionTree.{expr_tree};
ghost use Rattle.bas_ast.specs.Tree.{Nothing};
ghost use Rattle.bas_rules.specs.Kinds.{expr_kind, name_kind, same_kind};
ghost use Rattle.bas_rules.specs.Sites.{Ground, site_at};
ghost use Rattle.bas_rules.specs.Well.{first_failed, rules};
ghost use Rattle.bas_names.specs.Names.{senses_in};
ghost use Rattle.bas_place.specs.Standing.{StandsOn};
ghost use Rattle.bas_judge.specs.Clashes.{uses_sub};
ghost use Rattle.bas_judge.specs.Definitions.{definition_item, definition_line};
ghost use Rattle.bas_judge.specs.Rows.{line_fault as line_fault_of};

use crate::claims::is_any_sub_before;
use crate::law::faults_of_places;
use bas_ast::Expr;
use bas_base::{Line, Name};
use bas_claim::FirstLines;
use bas_kind::is_number;
use bas_names::Names;
use bas_operands::{first_broken, least};
use bas_place::Place;
use bas_scope::is_text_name;
use bas_uses::names_in_definition;
use std::alloc::{AllocError, Global};

// Whether the value is a number and the name that of a string, or the other way round.
fn has_other_kind(name: Name, value: &Expr) -> bool
    ensures { result ≡ not (same_kind (name_kind name) (expr_kind (expr_tree value.now))) }
{
    is_text_name(name) == is_number(value)
}

fn uses_sub_before(
    alloc: Global,
    names: &Names<'_>,
    first: &FirstLines,
    line: Line,
    name: Name,
    value: &Expr,
) -> Result<bool, AllocError>
    ensures { IfOk result (λ used. used ≡ uses_sub (senses_in names.now) first.now line (definition_item name (expr_tree value.now))) }
{
    let used = names_in_definition(alloc, name, value)?;
    Ok(is_any_sub_before(names, first, line, used.as_slice()))
}

// The least rule that the one line breaks besides those of its operands.
fn own_fault(
    alloc: Global,
    place: &Place<'_>,
    line: Line,
    name: Name,
    value: &Expr,
) -> Result<Option<u8>, AllocError>
    ensures { IfOk result (λ rule. (g : Ground) → StandsOn place.now g → rule ≡ line_fault_of (site_at g Nothing (definition_line line name (expr_tree value.now)))) }
{
    let uses_sub = uses_sub_before(alloc, &place.names, place.container, line, name, value)?;
    Ok(first_broken(&[(1, uses_sub), (3, has_other_kind(name, value))]))
}

/// The least rule that the body of a definition breaks at its one line, which has the number of its
/// `DEF` and sets its name to its value, by its place in that body.
pub fn definition_fault(
    alloc: Global,
    place: &Place<'_>,
    line: Line,
    name: Name,
    value: &Expr,
) -> Result<Option<u8>, AllocError>
    ensures { (g : Ground) → StandsOn place.now g → IfOk result (λ rule. rule ≡ first_failed 1 rules (site_at g Nothing (definition_line line name (expr_tree value.now)) ∷ [])) }
{
    faults_of_places();
    let own = own_fault(alloc, place, line, name, value)?;
    Ok(least(
        own,
        bas_operands::definition_fault(&place.names, name, value),
    ))
}
