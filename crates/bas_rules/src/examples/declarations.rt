//! Declarations out of bounds or out of place.

ghost use Rattle.std.specs.Prelude.{◌≡◌, [], ◌∷◌, Some, None, codes};
ghost use Rattle.bas_ast.specs.Tree.{FormalName, Declare, NumericKind, StringKind, OptionBaseZero, OptionBaseOne, OptionArithmeticDecimal, OptionArithmeticFixed, Public, Share, Private};
ghost use Rattle.bas_scope.specs.Examples.{sets, declares_at, plain_item, typed, up_to, from_to};
ghost use Rattle.bas_rules.specs.Well.{first_fault};
ghost use Rattle.bas_rules.specs.Examples.{broken, main_of, sub_of, alone, module_of, program_of, number, dim, sized};

/// Rules 13 and 14: types and bounds.
pub fn declarations_in_bounds()
    ensures most_digits { first_fault (main_of (declares_at 10 (Declare NumericKind (typed 20 18 (plain_item (codes "X")) ∷ [])) ∷ []) 20) ≡ None }
    ensures too_many_places { first_fault (main_of (declares_at 10 (Declare NumericKind (typed 2 19 (plain_item (codes "X")) ∷ [])) ∷ []) 20) ≡ broken 10 13 }
    ensures too_many_digits { first_fault (main_of (declares_at 10 (Declare NumericKind (typed 21 18 (plain_item (codes "X")) ∷ [])) ∷ []) 20) ≡ broken 10 13 }
    ensures no_digits { first_fault (main_of (declares_at 10 (OptionArithmeticFixed (record { whole = 0; fraction = None })) ∷ []) 20) ≡ broken 10 13 }
    ensures length_1 { first_fault (main_of (declares_at 10 (Declare StringKind (sized 1 (plain_item (codes "A$")) ∷ [])) ∷ []) 20) ≡ None }
    ensures length_0 { first_fault (main_of (declares_at 10 (Declare StringKind (sized 0 (plain_item (codes "A$")) ∷ [])) ∷ []) 20) ≡ broken 10 13 }
    ensures length_65536 { first_fault (main_of (declares_at 10 (Declare StringKind (sized 65536 (plain_item (codes "A$")) ∷ [])) ∷ []) 20) ≡ broken 10 13 }
    ensures length_with_fraction { first_fault (main_of (declares_at 10 (Declare StringKind (typed 8 0 (plain_item (codes "A$")) ∷ [])) ∷ []) 20) ≡ broken 10 13 }
    ensures one_element { first_fault (main_of (dim 10 (codes "A") (from_to 5 5 ∷ []) ∷ []) 20) ≡ None }
    ensures falling { first_fault (main_of (dim 10 (codes "A") (from_to 5 4 ∷ []) ∷ []) 20) ≡ broken 10 14 }
    ensures below_base { first_fault (main_of (dim 10 (codes "A") (up_to 0 ∷ []) ∷ []) 20) ≡ broken 10 14 }
    ensures base_0 { first_fault (main_of (declares_at 10 OptionBaseZero ∷ dim 20 (codes "A") (up_to 0 ∷ []) ∷ []) 30) ≡ None }
    ensures too_far { first_fault (main_of (dim 10 (codes "A") (from_to 1000000 1000001 ∷ []) ∷ []) 20) ≡ broken 10 14 }
    ensures elements { first_fault (main_of (dim 10 (codes "A") (up_to 1000 ∷ up_to 1000 ∷ []) ∷ []) 20) ≡ None }
    ensures too_many_elements { first_fault (main_of (dim 10 (codes "A") (up_to 1000 ∷ up_to 1001 ∷ []) ∷ []) 20) ≡ broken 10 14 }
    ensures four_dimensions { first_fault (main_of (dim 10 (codes "A") (up_to 2 ∷ up_to 2 ∷ up_to 2 ∷ up_to 2 ∷ []) ∷ []) 20) ≡ broken 10 14 }
    ensures four_of_formal { first_fault (alone (sub_of 10 (FormalName (codes "A") 4 ∷ []) [] 20)) ≡ broken 10 14 }
{}

/// Rules 15 and 18: options come first, each once; a module declares before its procedures. The least
/// rule of a line counts, and the first line of a unit.
pub fn declarations_in_place()
    ensures options { first_fault (program_of [] (declares_at 20 OptionBaseOne ∷ declares_at 30 OptionArithmeticDecimal ∷ []) 40) ≡ None }
    ensures option_behind_first { first_fault (main_of (sets 10 (codes "A") (number 1) ∷ declares_at 20 OptionBaseZero ∷ []) 30) ≡ None }
    ensures late_option { first_fault (main_of (sets 10 (codes "A") (number 1) ∷ sets 20 (codes "A") (number 1) ∷ declares_at 30 OptionBaseZero ∷ []) 40) ≡ broken 30 15 }
    ensures option_twice { first_fault (main_of (declares_at 10 OptionBaseZero ∷ declares_at 20 OptionBaseOne ∷ []) 30) ≡ broken 20 15 }
    ensures public_in_program { first_fault (main_of (declares_at 10 (Public NumericKind (plain_item (codes "A") ∷ [])) ∷ []) 20) ≡ broken 10 18 }
    ensures share_in_procedure { first_fault (module_of [] (sub_of 20 [] (declares_at 30 (Share NumericKind (plain_item (codes "A") ∷ [])) ∷ []) 40 ∷ []) 50) ≡ broken 30 18 }
    ensures private { first_fault (module_of (declares_at 20 (Private (codes "P" ∷ [])) ∷ []) (sub_of 30 [] [] 40 ∷ []) 50) ≡ None }
    ensures private_of_none { first_fault (module_of (declares_at 20 (Private (codes "Q" ∷ [])) ∷ []) (sub_of 30 [] [] 40 ∷ []) 50) ≡ broken 20 18 }
    ensures least_rule { first_fault (main_of (dim 10 (codes "A") (up_to 3 ∷ []) ∷ dim 20 (codes "A") (up_to 0 ∷ []) ∷ []) 30) ≡ broken 20 1 }
    ensures first_line { first_fault (main_of (dim 10 (codes "A") (up_to 0 ∷ []) ∷ dim 20 (codes "A") (up_to 3 ∷ []) ∷ []) 30) ≡ broken 10 14 }
{}
