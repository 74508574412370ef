//! What follows from the grammar of lines and its reader.

ghost use Rattle.std.specs.Prelude.{◌≡◌, ℕ, List, Some};
ghost use Rattle.bas_ast.specs.declared.block.LineItem.{LineItem};
ghost use Rattle.bas_line.specs.Items.{IsItem};
ghost use Rattle.bas_line.specs.Itemizing.{item_of};

/// A line has one item at most.
#[tactic(auto, using(crate::proofs::WholeLaws::one_item))]
pub fn one_item_law()
    ensures { (line : List ℕ) (a b : LineItem) → IsItem line a → IsItem line b → a ≡ b }
{}

/// The item of a line is a function of its bytes.
#[tactic(auto, using(crate::proofs::WholeLaws::item_stands, crate::proofs::WholeLaws::item_read))]
pub fn item_law()
    ensures sound { (line : List ℕ) (item : LineItem) → item_of line ≡ Some item → IsItem line item }
    ensures whole { (line : List ℕ) (item : LineItem) → IsItem line item → item_of line ≡ Some item }
{}
