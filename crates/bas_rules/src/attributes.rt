//! The attributes of `OPEN`.

ghost use Rattle.std.specs.Prelude.{◌≡◌, ◌||◌, map};
ghost use Rattle.std.specs.List.{list_any};
ghost use Rattle.bas_ast.specs.RecordTree.{attr_tree, organization_tree, rectype_tree};
ghost use Rattle.bas_rules.specs.Recording as rule;

use crate::limits::{LARGEST_RECORD, LEAST_RECORD};
use bas_ast::{Attr, Organization, Rectype};

#[tactic(auto, unfolding(bas_ast::specs::RecordTree::attr_tree))]
fn same_attribute(a: Attr, b: Attr) -> bool
    ensures { result ≡ rule.same_attribute (attr_tree a) (attr_tree b) }
{
    match (a, b) {
        (Attr::Organization(_), Attr::Organization(_)) => true,
        (Attr::Rectype(_), Attr::Rectype(_)) => true,
        (Attr::Access(_), Attr::Access(_)) => true,
        (Attr::Create(_), Attr::Create(_)) => true,
        (Attr::Recsize(_), Attr::Recsize(_)) => true,
        _ => false,
    }
}

fn has_one_of_kind(attr: Attr, attrs: &[Attr]) -> bool
    ensures { result ≡ list_any (rule.same_attribute (attr_tree attr)) (map attr_tree attrs.now) }
{
    for other in attrs {
        if same_attribute(attr, *other) {
            return true;
        }
    }
    false
}

fn has_attribute_twice(attrs: &[Attr]) -> bool
    ensures { result ≡ rule.has_attribute_twice (map attr_tree attrs.now) }
{
    for (i, attr) in attrs.iter().enumerate() {
        if has_one_of_kind(*attr, &attrs[i + 1..]) {
            return true;
        }
    }
    false
}

#[tactic(auto, unfolding(bas_ast::specs::RecordTree::attr_tree))]
fn organization_in(attrs: &[Attr]) -> Organization
    ensures { organization_tree result ≡ rule.organization_in (map attr_tree attrs.now) }
{
    for attr in attrs {
        if let Attr::Organization(organization) = *attr {
            return organization;
        }
    }
    Organization::Sequential
}

#[tactic(auto, unfolding(bas_ast::specs::RecordTree::attr_tree))]
fn rectype_in(attrs: &[Attr]) -> Rectype
    ensures { rectype_tree result ≡ rule.rectype_in (map attr_tree attrs.now) }
{
    for attr in attrs {
        if let Attr::Rectype(rectype) = *attr {
            return rectype;
        }
    }
    Rectype::Display
}

fn go_together(organization: Organization, rectype: Rectype) -> bool
    ensures { result ≡ rule.go_together (organization_tree organization) (rectype_tree rectype) }
{
    match (organization, rectype) {
        (Organization::Sequential, _) => true,
        (_, Rectype::Internal) => true,
        _ => false,
    }
}

#[tactic(auto, unfolding(bas_ast::specs::RecordTree::attr_tree))]
fn has_bad_size(attr: Attr) -> bool
    ensures { result ≡ rule.has_bad_size (attr_tree attr) }
{
    match attr {
        Attr::Recsize(size) => !(size >= LEAST_RECORD && size <= LARGEST_RECORD),
        _ => false,
    }
}

fn has_bad_sizes(attrs: &[Attr]) -> bool
    ensures { result ≡ list_any rule.has_bad_size (map attr_tree attrs.now) }
{
    for attr in attrs {
        if has_bad_size(*attr) {
            return true;
        }
    }
    false
}

/// Whether an attribute stands twice, does not go with another one, or is a size out of bounds.
pub fn are_bad_attributes(attrs: &[Attr]) -> bool
    ensures { result ≡ rule.are_bad_attributes (map attr_tree attrs.now) }
{
    has_attribute_twice(attrs)
        || !go_together(organization_in(attrs), rectype_in(attrs))
        || has_bad_sizes(attrs)
}
