//! What the first line of a body has declared.

ghost use Rattle.std.specs.Prelude.{◌≡◌, ◌++◌, map, IfOk, OnOk};
ghost use Rattle.std.specs.List.{filter_map};
ghost use Rattle.std.specs.Option.{option_to_list};
ghost use Rattle.bas_ast.specs.BlockTree.{item_tree};
ghost use Rattle.bas_ast.specs.PartTree.{formal_tree};
ghost use Rattle.bas_rules.specs.Naming.{function_name, formal_names, name_of_formal};
ghost use Rattle.bas_claim.specs.Headings.{Describes, refuses};

use crate::twice::set_of;
use bas_ast::{Formal, LineItem, Part};
use bas_base::Name;
use bas_rules::Claim;
use bas_scope::{BodyKind, formals_on};
use std::alloc::{AllocError, Global};
use std::collections::BTreeSet;

#[tactic(auto, unfolding(bas_ast::specs::PartTree::formal_tree))]
fn name_of(formal: Formal) -> Option<Name>
    ensures { result ≡ name_of_formal (formal_tree formal) }
{
    match formal {
        Formal::Name(name, _) => Some(name),
        Formal::Chan(_) => None,
    }
}

fn push_name(names: &mut Vec<Name>, name: Option<Name>) -> Result<(), AllocError>
    ensures { OnOk result (names.new.items ≡ names.old.items ++ option_to_list name) }
{
    if let Some(name) = name {
        names.push(name)?;
    }
    Ok(())
}

fn push_formals(names: &mut Vec<Name>, formals: &[Formal]) -> Result<(), AllocError>
    ensures { OnOk result (names.new.items ≡ names.old.items ++ filter_map name_of_formal (map formal_tree formals.now)) }
{
    for formal in formals {
        push_name(names, name_of(*formal))?;
    }
    Ok(())
}

#[tactic(auto, unfolding(bas_ast::specs::BlockTree::item_tree, bas_ast::specs::PartTree::part_tree))]
fn function_on(item: &LineItem) -> Option<Name>
    ensures { option_to_list result ≡ function_name (item_tree item.now) }
{
    match item {
        LineItem::Part(part) => match part.get() {
            Part::Function(name, _) | Part::ExternalFunction(name, _) | Part::Def(name, _, _) => {
                Some(*name)
            }
            _ => None,
        },
        _ => None,
    }
}

fn formals_named(alloc: Global, item: &LineItem) -> Result<Vec<Name>, AllocError>
    ensures { IfOk result (λ names. names.items ≡ formal_names (item_tree item.now)) }
{
    let mut names = Vec::new(alloc);
    push_formals(&mut names, formals_on(item))?;
    Ok(names)
}

/// The function and the formals that a line names where it begins a body.
pub fn names_of_heading(alloc: Global, item: &LineItem) -> Result<Vec<Name>, AllocError>
    ensures { IfOk result (λ names. names.items ≡ function_name (item_tree item.now) ++ formal_names (item_tree item.now)) }
{
    let mut names = Vec::new(alloc);
    push_name(&mut names, function_on(item))?;
    push_formals(&mut names, formals_on(item))?;
    Ok(names)
}

/// The function and the formals of a body, as its first line names them.
#[derive(Drop)]
pub struct Heading {
    formals: BTreeSet<Name>,
    function: Option<Name>,
}

impl Heading {
    ghost use Rattle.std.specs.Ordering.{nat_cmp};
    ghost use Rattle.bas_claim.specs.Headings.{has_formal, is_function};

    /// What the first line of a body has declared.
    pub fn of(alloc: Global, item: &LineItem) -> Result<Heading, AllocError>
        ensures { IfOk result (λ heading. Describes heading (item_tree item.now)) }
    {
        let names = formals_named(alloc, item)?;
        let formals = set_of(alloc, names.as_slice())?;
        Ok(Heading {
            formals,
            function: function_on(item),
        })
    }

    fn has_formal(&self, name: Name) -> bool
        ensures { result ≡ has_formal self.now name }
    {
        self.formals.contains(&name)
    }

    fn is_function(&self, name: Name) -> bool
        ensures { result ≡ is_function self.now name }
    {
        match self.function {
            Some(function) => name == function,
            None => false,
        }
    }

    /// Whether a body of a kind does not take a claim, whatever was declared before it.
    pub fn refuses(&self, kind: BodyKind, claim: Claim) -> bool
        ensures { result ≡ refuses kind self.now claim }
    {
        match (kind, claim) {
            (BodyKind::Internal, Claim::Types(name)) => !self.has_formal(name),
            (BodyKind::Internal, _) => true,
            (_, Claim::Types(name)) => self.is_function(name),
            (_, Claim::Imports(name)) => self.has_formal(name),
            (_, Claim::Makes(name)) => self.has_formal(name) || self.is_function(name),
        }
    }
}
