//! What `DECLARE` declares in a body.

ghost use Rattle.std.specs.Prelude.{◌≡◌, ℕ, List, None, map, IfOk};
ghost use Rattle.std.specs.Option.{option_map, option_or};
ghost use Rattle.std.specs.List.{find as first_of};
ghost use Rattle.std.specs.Str.{bytes_eq};
ghost use Rattle.bas_ast.specs.BlockTree.{item_tree};
ghost use Rattle.bas_ast.specs.DeclarationTree.{declared_tree};
ghost use Rattle.bas_scope.specs.Scope.{declares};
ghost use Rattle.bas_names.specs.Lent.{line_trees};
ghost use Rattle.bas_names.specs.Tables.{Declares, item_in};

use crate::behind::put_behind;
use bas_ast::{Decl, DeclaredItem, LineItem, NumLine};
use bas_base::Name;
use std::alloc::{AllocError, Global};
use std::collections::BTreeMap;

/// The items that `DECLARE` declares among lines, by their names.
#[derive(Drop)]
pub struct Declared<'a> {
    items: BTreeMap<Name, &'a DeclaredItem>,
}

impl<'a> Declared<'a> {
    /// No items.
    pub fn new(alloc: Global) -> Declared<'a>
        ensures { (name : List ℕ) → item_in result name ≡ None }
    {
        Declared {
            items: BTreeMap::new(alloc),
        }
    }

    /// The item that declares a name.
    pub fn find(&self, name: &Name) -> Option<&'a DeclaredItem>
        ensures { option_map (λ item. declared_tree item.now) result ≡ item_in self.now name.now }
    {
        self.items.get(name).copied()
    }

    fn put_items(&mut self, items: &'a [DeclaredItem]) -> Result<(), AllocError>
        ensures { IfOk result (λ _. (name : List ℕ) → item_in self.new name ≡ option_or (item_in self.old name) (first_of (λ item. bytes_eq name item.name) (map declared_tree items.now))) }
    {
        for item in items {
            put_behind(&mut self.items, item.name, item)?;
        }
        Ok(())
    }

    #[tactic(auto, unfolding(bas_ast::specs::BlockTree::item_tree, bas_ast::specs::DeclarationTree::decl_tree))]
    fn put_line(&mut self, item: &'a LineItem) -> Result<(), AllocError>
        ensures { IfOk result (λ _. (name : List ℕ) → item_in self.new name ≡ option_or (item_in self.old name) (declares name (item_tree item.now))) }
    {
        match item {
            LineItem::Decl(decl) => match decl.get() {
                Decl::Declare(_, items) => self.put_items(items.items.items()),
                _ => Ok(()),
            },
            _ => Ok(()),
        }
    }

    /// The items that lines declare.
    pub fn on(alloc: Global, lines: &[&'a NumLine]) -> Result<Declared<'a>, AllocError>
        ensures { IfOk result (λ declared. Declares declared (line_trees lines.now)) }
    {
        let mut declared = Declared::new(alloc);
        for line in lines {
            declared.put_line(&line.item)?;
        }
        Ok(declared)
    }
}
