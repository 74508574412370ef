//! What a line declares in its body.

ghost use Rattle.std.specs.Prelude.{◌≡◌, List, [], ◌∷◌, map, IfOk};
ghost use Rattle.bas_ast.specs.BlockTree.{item_tree};
ghost use Rattle.bas_ast.specs.DeclarationTree.{decl_tree, declared_tree};
ghost use Rattle.bas_ast.specs.PartTree.{part_tree};
ghost use Rattle.bas_ast.specs.Tree.{OfPart};
ghost use Rattle.bas_rules.specs.Naming as rule;
ghost use Rattle.bas_rules.specs.declared.claims.Claim.TheVariants.{Imports, Makes};

use bas_ast::{Decl, DeclaredItem, LineItem, Part, ProcedureKind};
use bas_base::Name;
use std::alloc::{AllocError, Global};

/// How a line claims a name in its body.
#[derive(Clone, Copy, Debug)]
pub enum Claim {
    /// `DECLARE` without bounds may give a formal its type.
    Types(Name),
    /// `DECLARE EXTERNAL FUNCTION` may name the function that it stands in.
    Imports(Name),
    /// Any other declaration makes the name anew.
    Makes(Name),
}

impl Claim {
    ghost use Rattle.bas_rules.specs.Naming.{claimed_name};

    /// The name that is claimed.
    pub fn name(self) -> Name
        ensures { result ≡ claimed_name self }
    {
        match self {
            Claim::Types(name) | Claim::Imports(name) | Claim::Makes(name) => name,
        }
    }
}

fn made(alloc: Global, items: &[DeclaredItem]) -> Result<Vec<Claim>, AllocError>
    ensures { IfOk result (λ claims. claims.items ≡ rule.made (map declared_tree items.now)) }
{
    let mut claims = Vec::new(alloc);
    for item in items {
        claims.push(Claim::Makes(item.name))?;
    }
    Ok(claims)
}

fn declared(item: &DeclaredItem) -> Claim
    ensures { let tree = declared_tree item.now in result ≡ rule.types_name tree.name tree.bounds }
{
    if item.bounds.items().is_empty() {
        Claim::Types(item.name)
    } else {
        Claim::Makes(item.name)
    }
}

fn all_declared(alloc: Global, items: &[DeclaredItem]) -> Result<Vec<Claim>, AllocError>
    ensures { IfOk result (λ claims. claims.items ≡ map (λ item. rule.types_name item.name item.bounds) (map declared_tree items.now)) }
{
    let mut claims = Vec::new(alloc);
    for item in items {
        claims.push(declared(item))?;
    }
    Ok(claims)
}

fn subs(alloc: Global, names: &[Name]) -> Result<Vec<Claim>, AllocError>
    ensures { IfOk result (λ claims. claims.items ≡ map Makes names.now) }
{
    let mut claims = Vec::new(alloc);
    for name in names {
        claims.push(Claim::Makes(*name))?;
    }
    Ok(claims)
}

fn functions(alloc: Global, names: &[Name]) -> Result<Vec<Claim>, AllocError>
    ensures { IfOk result (λ claims. claims.items ≡ map Imports names.now) }
{
    let mut claims = Vec::new(alloc);
    for name in names {
        claims.push(Claim::Imports(*name))?;
    }
    Ok(claims)
}

#[tactic(auto, unfolding(bas_ast::specs::DeclarationTree::decl_tree))]
fn claims_of_declaration(alloc: Global, decl: &Decl) -> Result<Vec<Claim>, AllocError>
    ensures { IfOk result (λ claims. claims.items ≡ rule.claims_of_decl (decl_tree decl.now)) }
{
    match decl {
        Decl::Dim(items)
        | Decl::Public(_, items)
        | Decl::Share(_, items)
        | Decl::DeclarePublic(_, items) => made(alloc, items.items.items()),
        Decl::Declare(_, items) => all_declared(alloc, items.items.items()),
        Decl::DeclareExternal(ProcedureKind::Sub, names) => subs(alloc, names.items()),
        Decl::DeclareExternal(ProcedureKind::Function, names) => functions(alloc, names.items()),
        _ => Ok(Vec::new(alloc)),
    }
}

fn one(alloc: Global, claim: Claim) -> Result<Vec<Claim>, AllocError>
    ensures { IfOk result (λ claims. claims.items ≡ claim ∷ []) }
{
    let mut claims = Vec::new(alloc);
    claims.push(claim)?;
    Ok(claims)
}

#[tactic(auto, unfolding(bas_ast::specs::PartTree::part_tree))]
fn claims_of_part(alloc: Global, part: &Part) -> Result<Vec<Claim>, AllocError>
    ensures { IfOk result (λ claims. claims.items ≡ rule.claims_on (OfPart (part_tree part.now))) }
{
    match part {
        Part::Sub(name, _) | Part::Function(name, _) | Part::Def(name, _, _) => {
            one(alloc, Claim::Makes(*name))
        }
        _ => Ok(Vec::new(alloc)),
    }
}

/// What a line declares in its body, in order.
#[tactic(auto, unfolding(bas_ast::specs::BlockTree::item_tree))]
pub fn claims_on(alloc: Global, item: &LineItem) -> Result<Vec<Claim>, AllocError>
    ensures { IfOk result (λ claims. claims.items ≡ rule.claims_on (item_tree item.now)) }
{
    match item {
        LineItem::Decl(decl) => claims_of_declaration(alloc, decl.get()),
        LineItem::Part(part) => claims_of_part(alloc, part.get()),
        _ => Ok(Vec::new(alloc)),
    }
}
