//! Small arrays, stores and references.

ghost use Rattle.std.specs.Prelude.{◌≡◌, pos, neg_ℤ, [], ◌∷◌, ◌++◌, Some, None, Ok, Err, codes, length, take};
ghost use Rattle.bas_dec.specs.declared.types.NumType.TheVariants.{General};
ghost use Rattle.bas_face.specs.declared.shape.Shape.TheVariants as shape;
ghost use Rattle.bas_fileval.specs.Value.{Text};
ghost use Rattle.bas_cell.specs.Bounds.{elements, element_number};
ghost use Rattle.bas_cell.specs.Holding.{held};
ghost use Rattle.bas_cell.specs.Live.{fresh, dimension_bounds};
ghost use Rattle.bas_cell.specs.Examples.{table, around_zero, box, digits, decimal, cell_of, four_cells, store, load};

/// `DIM A(1 TO 2, 0 TO 2)`, `DIM A(-2 TO 1)` and `DIM A(0 TO 1, 1 TO 2, 1 TO 3)`: the elements stand row
/// by row, and there is none outside the bounds or with another count of subscripts.
pub fn worked_arrays()
    ensures count { elements table ≡ 6 }
    ensures first { element_number table (pos 1 ∷ pos 0 ∷ []) ≡ Some 0 }
    ensures end_of_row { element_number table (pos 1 ∷ pos 2 ∷ []) ≡ Some 2 }
    ensures next_row { element_number table (pos 2 ∷ pos 0 ∷ []) ≡ Some 3 }
    ensures last { element_number table (pos 2 ∷ pos 2 ∷ []) ≡ Some 5 }
    ensures below_row { element_number table (pos 0 ∷ pos 0 ∷ []) ≡ None }
    ensures above_row { element_number table (pos 3 ∷ pos 0 ∷ []) ≡ None }
    ensures below_column { element_number table (pos 1 ∷ neg_ℤ (pos 1) ∷ []) ≡ None }
    ensures above_column { element_number table (pos 1 ∷ pos 3 ∷ []) ≡ None }
    ensures too_few { element_number table (pos 1 ∷ []) ≡ None }
    ensures too_many { element_number table (pos 1 ∷ pos 0 ∷ pos 0 ∷ []) ≡ None }
    ensures lowest { element_number around_zero (neg_ℤ (pos 2) ∷ []) ≡ Some 0 }
    ensures highest { element_number around_zero (pos 1 ∷ []) ≡ Some 3 }
    ensures too_low { element_number around_zero (neg_ℤ (pos 3) ∷ []) ≡ None }
    ensures box_count { elements box ≡ 12 }
    ensures box_row { element_number box (pos 0 ∷ pos 2 ∷ pos 1 ∷ []) ≡ Some 3 }
    ensures box_layer { element_number box (pos 1 ∷ pos 1 ∷ pos 1 ∷ []) ≡ Some 6 }
    ensures box_last { element_number box (pos 1 ∷ pos 2 ∷ pos 3 ∷ []) ≡ Some 11 }
    ensures scalar { element_number [] [] ≡ Some 0 }
    ensures first_bounds { dimension_bounds (cell_of (shape.NumArray General 2) table) (pos 1) ≡ Some (pos 1, pos 2) }
    ensures last_bounds { dimension_bounds (cell_of (shape.NumArray General 2) table) (pos 2) ≡ Some (pos 0, pos 2) }
    ensures no_dimension { dimension_bounds (cell_of (shape.NumArray General 2) table) (pos 0) ≡ None }
    ensures no_third { dimension_bounds (cell_of (shape.NumArray General 2) table) (pos 3) ≡ None }
{}

/// A number is rounded to its type, 1010 where it is then too large; a string that is too long is 1106.
#[tactic(auto, unfolding(bas_dec::specs::Fixed::fitted, bas_dec::specs::Number::low, bas_dec::specs::Number::stripped))]
pub fn worked_stores()
    ensures rounded { held (shape.Num (digits 3 2)) (decimal (pos 2345) 3) ≡ Ok (decimal (pos 235) 2) }
    ensures below_zero { held (shape.Num (digits 3 2)) (decimal (neg_ℤ (pos 2345)) 3) ≡ Ok (decimal (neg_ℤ (pos 235)) 2) }
    ensures too_large { held (shape.Num (digits 3 2)) (decimal (pos 1000) 0) ≡ Err 1010 }
    ensures rounded_away { held (shape.NumArray (digits 3 2) 1) (decimal (pos 999995) 3) ≡ Err 1010 }
    ensures general { held (shape.Num General) (decimal (pos 2345) 3) ≡ Ok (decimal (pos 2345) 3) }
    ensures channel { held shape.Channel (decimal (pos 7) 0) ≡ Ok (decimal (pos 7) 0) }
    ensures fits { held (shape.Str 5) (Text (codes "HELLO")) ≡ Ok (Text (codes "HELLO")) }
    ensures too_long { held (shape.Str 5) (Text (codes "HELLO!")) ≡ Err 1106 }
    ensures element_too_long { held (shape.StrArray 1 2) (Text (codes "NO")) ≡ Err 1106 }
    ensures passed { held shape.StrValue (Text (codes "HELLO!")) ≡ Ok (Text (codes "HELLO!")) }
{}

/// `X*3.2`, `S$*5`, `A(1 TO 3)` and `B$(1 TO 2)*1`: two references to one element see each other's
/// stores, and no other value changes.
#[tactic(auto, unfolding(bas_dec::specs::Fixed::fitted, bas_dec::specs::Number::low, bas_dec::specs::Number::stripped))]
pub fn worked_references()
    ensures unset_number { load four_cells 2 1 ≡ decimal (pos 0) 0 }
    ensures unset_text { load four_cells 3 1 ≡ Text [] }
    ensures element { load (store (store four_cells 2 1 (decimal (pos 5) 0)) 2 1 (decimal (pos 10) 0)) 2 1 ≡ decimal (pos 10) 0 }
    ensures neighbour { load (store four_cells 2 1 (decimal (pos 5) 0)) 2 2 ≡ decimal (pos 0) 0 }
    ensures other_cell { load (store four_cells 2 0 (decimal (pos 5) 0)) 0 0 ≡ decimal (pos 0) 0 }
    ensures rounded { load (store four_cells 0 0 (decimal (pos 2345) 3)) 0 0 ≡ decimal (pos 235) 2 }
    ensures misfit { store four_cells 0 0 (decimal (pos 1000) 0) ≡ four_cells }
    ensures text { load (store four_cells 3 1 (Text (codes "Y"))) 3 1 ≡ Text (codes "Y") }
    ensures long_text { store four_cells 1 0 (Text (codes "HELLO!")) ≡ four_cells }
    ensures dropped { length (take 2 four_cells) ≡ 2 }
    ensures made { load (four_cells ++ fresh (cell_of (shape.Str 9) []) ∷ []) 4 0 ≡ Text [] }
{}
