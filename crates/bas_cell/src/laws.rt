//! What the definitions of elements and places come to: each function states laws and does nothing.

ghost use Rattle.bas_cell.specs.Laws.{ElementsAreApart, ElementsAreInOrder, PlacesAreApart, PlacesStay, ShapesStay};

/// Elements have numbers exactly between the bounds, and different elements different ones.
#[tactic(auto, using(crate::proofs::Elements::elements_are_apart))]
pub fn elements_are_apart()
    ensures { ElementsAreApart }
{}

/// Elements are numbered in the order of their subscripts, with no number left out.
#[tactic(auto, using(crate::proofs::Elements::elements_are_in_order))]
pub fn elements_are_in_order()
    ensures { ElementsAreInOrder }
{}

/// A read gives the last value that was written at its place, and all other places stay.
#[tactic(auto, using(crate::proofs::Places::places_are_apart))]
pub fn places_are_apart()
    ensures { PlacesAreApart }
{}

/// A reference stays good as long as its cell is live, whatever is written, made or dropped behind it.
#[tactic(auto, using(crate::proofs::Places::places_stay))]
pub fn places_stay()
    ensures { PlacesStay }
{}

/// A store leaves the shapes and bounds of all cells.
#[tactic(auto, using(crate::proofs::Places::all_shapes_stay))]
pub fn shapes_stay()
    ensures { ShapesStay }
{}
