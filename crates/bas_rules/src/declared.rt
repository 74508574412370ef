//! What a declaration may be: kinds and types.

ghost use Rattle.std.specs.Prelude.{◌≡◌, ◌||◌, map};
ghost use Rattle.std.specs.List.{list_any};
ghost use Rattle.bas_ast.specs.Tree.{OfDecl};
ghost use Rattle.bas_ast.specs.DeclarationTree.{declared_tree, kind_tree, decl_tree};
ghost use Rattle.bas_rules.specs.Declaring as rule;

use crate::types::{has_bad_type, is_number_type};
use bas_ast::{Decl, DeclaredItem, DeclaredKind};
use bas_scope::is_text_name;

fn has_other_kind(kind: DeclaredKind, item: &DeclaredItem) -> bool
    ensures { result ≡ rule.has_other_kind (kind_tree kind) (declared_tree item.now) }
{
    match kind {
        DeclaredKind::Numeric => is_text_name(item.name),
        DeclaredKind::String => !is_text_name(item.name),
    }
}

fn have_other_kind(kind: DeclaredKind, items: &[DeclaredItem]) -> bool
    ensures { result ≡ list_any (rule.has_other_kind (kind_tree kind)) (map declared_tree items.now) }
{
    for item in items {
        if has_other_kind(kind, item) {
            return true;
        }
    }
    false
}

/// Whether a declaration names a number with the name of a string, or the other way round.
#[tactic(auto, unfolding(bas_ast::specs::DeclarationTree::decl_tree))]
pub fn declares_other_kind(decl: &Decl) -> bool
    ensures { result ≡ rule.declares_other_kind (OfDecl (decl_tree decl.now)) }
{
    match decl {
        Decl::Declare(kind, items)
        | Decl::Public(kind, items)
        | Decl::Share(kind, items)
        | Decl::DeclarePublic(kind, items) => have_other_kind(*kind, items.items.items()),
        _ => false,
    }
}

fn have_bad_type(items: &[DeclaredItem]) -> bool
    ensures { result ≡ list_any rule.has_bad_type (map declared_tree items.now) }
{
    for item in items {
        if has_bad_type(item) {
            return true;
        }
    }
    false
}

/// Whether a declaration has a type out of bounds.
#[tactic(auto, unfolding(bas_ast::specs::DeclarationTree::decl_tree))]
pub fn declares_bad_type(decl: &Decl) -> bool
    ensures { let item = OfDecl (decl_tree decl.now) in result ≡ (rule.has_bad_option item || list_any rule.has_bad_type (rule.items_on item)) }
{
    match decl {
        Decl::OptionArithmeticFixed(spec) => !is_number_type(*spec),
        Decl::Dim(items)
        | Decl::Declare(_, items)
        | Decl::Public(_, items)
        | Decl::Share(_, items)
        | Decl::DeclarePublic(_, items) => have_bad_type(items.items.items()),
        _ => false,
    }
}
