//! Laws of the layout, for proofs alone: each function states them and does nothing.

ghost use Rattle.std.specs.Prelude.{◌≡◌, ℕ, ◌+◌, ◌-◌, ◌%◌, ◌<◌, ◌≤◌, List, ◌∷◌, ◌++◌, length};
ghost use Rattle.bas_console.specs.Layout.{item, comma, tab, placed, sequence};
ghost use Rattle.bas_console.specs.Laws.{HasLineEnds};

/// What an item prints has the item's bytes in their order, and line ends before some of them alone.
#[tactic(auto, using(crate::proofs::LayoutLaws::item_bytes))]
pub fn item_keeps_its_bytes()
    ensures { (margin column : ℕ) (text : List ℕ) → 1 ≤ margin → column ≤ margin → HasLineEnds text (item margin text column).bytes }
{}

/// An item that fits is placed after what is on the line. One that does not, and is not longer than
/// the margin, is placed on the next line. A longer one is its first piece of the margin, and then
/// the rest of it, each an item.
#[tactic(auto, using(crate::proofs::LayoutLaws::item_here, crate::proofs::LayoutLaws::item_below, crate::proofs::Wrapping::item_cut))]
pub fn item_is_placed_or_cut()
    ensures here { (margin column : ℕ) (text : List ℕ) → column + length text ≤ margin → item margin text column ≡ placed text column }
    ensures next_line { (margin column : ℕ) (text : List ℕ) → 0 < column → margin < column + length text → length text ≤ margin → item margin text column ≡ record { bytes = 10 ∷ text; column = length text } }
    ensures cut { (margin column : ℕ) (first rest : List ℕ) → 1 ≤ margin → length first ≡ margin → 0 < length rest → item margin (first ++ rest) column ≡ sequence (item margin first) (item margin rest) column }
{}

/// The column never passes the margin. A comma and a `TAB` leave it before the margin, so at a
/// margin of 80 a comma never leaves it at 80.
#[tactic(auto, using(crate::proofs::Wrapping::column_item, crate::proofs::LayoutLaws::comma_before, crate::proofs::LayoutLaws::tab_before))]
pub fn column_stays_within_the_margin()
    ensures item { (margin column : ℕ) (text : List ℕ) → 1 ≤ margin → column ≤ margin → (item margin text column).column ≤ margin }
    ensures comma { (margin column : ℕ) → 1 ≤ margin → (comma margin column).column < margin }
    ensures tab { (margin n column : ℕ) → 1 ≤ margin → (tab margin n column).column < margin }
{}

/// `TAB(n)` goes to the `n`-th place, which is column `n - 1`. For an `n` past the margin it is the
/// `TAB` of `n` reduced by whole margins.
#[tactic(auto, using(crate::proofs::LayoutLaws::tab_place, crate::proofs::LayoutLaws::tab_reduced))]
pub fn tab_goes_to_its_place()
    ensures place { (margin n column : ℕ) → 1 ≤ n → n ≤ margin → (tab margin n column).column ≡ n - 1 }
    ensures reduced { (margin n column : ℕ) → 1 ≤ margin → tab margin ((n - 1) % margin + 1) column ≡ tab margin n column }
{}
