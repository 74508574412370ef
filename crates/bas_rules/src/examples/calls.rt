//! Calls with the wrong arguments.

ghost use Rattle.std.specs.Prelude.{◌≡◌, [], ◌∷◌, ◌++◌, Some, None, codes, replicate};
ghost use Rattle.bas_ast.specs.Tree.{Call, FormalName, FormalChan, Group, Declare, NumericKind, MoreArgs, NoArgs, ChanArgument};
ghost use Rattle.bas_scope.specs.Examples.{whole, bare, applied, args_of, does, sets, declares_at, plain_item, typed, up_to};
ghost use Rattle.bas_rules.specs.Well.{first_fault};
ghost use Rattle.bas_rules.specs.Examples.{broken, main_of, sub_of, function_of, alone, module_of, program_of, formal, array_formal, only, number, prints, dim, definition, sub};

/// Rules 11, 12, 20 and 24: counts of arguments, and which fit; lists of at most 255; channels of 1 to
/// 99; the formals of a program are scalars.
pub fn arguments_fit()
    ensures fits { first_fault (main_of (does 10 (Call (codes "P") (args_of (bare (codes "A") ∷ []))) ∷ sub 20 (codes "P") (formal (codes "X") ∷ []) [] 30 ∷ []) 40) ≡ None }
    ensures two_for_one { first_fault (main_of (does 10 (Call (codes "P") (args_of (whole 1 ∷ whole 2 ∷ []))) ∷ sub 20 (codes "P") (formal (codes "X") ∷ []) [] 30 ∷ []) 40) ≡ broken 10 11 }
    ensures other_type { first_fault (main_of (declares_at 10 (Declare NumericKind (typed 8 2 (plain_item (codes "A")) ∷ [])) ∷ does 20 (Call (codes "P") (args_of (bare (codes "A") ∷ []))) ∷ sub 30 (codes "P") (formal (codes "X") ∷ []) [] 40 ∷ []) 50) ≡ broken 20 11 }
    ensures by_value { first_fault (main_of (declares_at 10 (Declare NumericKind (typed 8 2 (plain_item (codes "A")) ∷ [])) ∷ does 20 (Call (codes "P") (args_of (Group (only (bare (codes "A"))) ∷ []))) ∷ sub 30 (codes "P") (formal (codes "X") ∷ []) [] 40 ∷ []) 50) ≡ None }
    ensures to_function { first_fault (main_of (declares_at 10 (Declare NumericKind (typed 8 2 (plain_item (codes "A")) ∷ [])) ∷ prints 20 (only (applied (codes "F") (bare (codes "A") ∷ []))) ∷ definition 30 (codes "F") (formal (codes "X") ∷ []) (number 1) ∷ []) 40) ≡ None }
    ensures bare_function { first_fault (main_of (prints 10 (only (bare (codes "F"))) ∷ definition 20 (codes "F") (formal (codes "X") ∷ []) (number 1) ∷ []) 30) ≡ broken 10 11 }
    ensures array_for_scalar { first_fault (main_of (dim 10 (codes "A") (up_to 3 ∷ []) ∷ does 20 (Call (codes "P") (args_of (bare (codes "A") ∷ []))) ∷ sub 30 (codes "P") (formal (codes "X") ∷ []) [] 40 ∷ []) 50) ≡ broken 20 11 }
    ensures array_for_array { first_fault (main_of (dim 10 (codes "A") (up_to 3 ∷ []) ∷ does 20 (Call (codes "P") (args_of (bare (codes "A") ∷ []))) ∷ sub 30 (codes "P") (array_formal (codes "X") ∷ []) [] 40 ∷ []) 50) ≡ None }
    ensures element { first_fault (main_of (dim 10 (codes "A") (up_to 3 ∷ []) ∷ does 20 (Call (codes "P") (args_of (applied (codes "A") (whole 1 ∷ []) ∷ []))) ∷ sub 30 (codes "P") (formal (codes "X") ∷ []) [] 40 ∷ []) 50) ≡ None }
    ensures channel { first_fault (main_of (does 10 (Call (codes "P") (MoreArgs (ChanArgument (number 1)) NoArgs)) ∷ sub 20 (codes "P") (FormalChan 1 ∷ []) [] 30 ∷ []) 40) ≡ None }
    ensures channel_for_number { first_fault (main_of (does 10 (Call (codes "P") (MoreArgs (ChanArgument (number 1)) NoArgs)) ∷ sub 20 (codes "P") (formal (codes "X") ∷ []) [] 30 ∷ []) 40) ≡ broken 10 11 }
    ensures of_module { first_fault (module_of (does 20 (Call (codes "P") (args_of [])) ∷ []) (sub_of 30 (formal (codes "X") ∷ []) [] 40 ∷ []) 50) ≡ broken 20 11 }
    ensures of_other_unit { first_fault (main_of (does 10 (Call (codes "P") (args_of (whole 1 ∷ whole 2 ∷ []))) ∷ []) 20) ≡ None }
    ensures supplied { first_fault (main_of (prints 10 (only (applied (codes "MOD") (whole 1 ∷ []))) ∷ []) 20) ≡ broken 10 12 }
    ensures supplied_bare { first_fault (main_of (prints 10 (only (bare (codes "ABS"))) ∷ []) 20) ≡ broken 10 12 }
    ensures supplied_alone { first_fault (main_of (prints 10 (only (bare (codes "RND"))) ∷ []) 20) ≡ None }
    ensures dimension_left_out { first_fault (main_of (dim 10 (codes "A") (up_to 3 ∷ up_to 3 ∷ []) ∷ prints 20 (only (applied (codes "UBOUND") (bare (codes "A") ∷ []))) ∷ []) 30) ≡ broken 20 12 }
    ensures arguments_255 { first_fault (main_of (does 10 (Call (codes "Q") (args_of (replicate 255 (whole 1)))) ∷ []) 20) ≡ None }
    ensures arguments_256 { first_fault (main_of (does 10 (Call (codes "Q") (args_of (replicate 256 (whole 1)))) ∷ []) 20) ≡ broken 10 20 }
    ensures channel_0 { first_fault (alone (sub_of 10 (FormalChan 0 ∷ []) [] 20)) ≡ broken 10 20 }
    ensures channel_twice { first_fault (alone (sub_of 10 (FormalChan 2 ∷ FormalChan 2 ∷ []) [] 20)) ≡ broken 10 20 }
    ensures program_of_scalars { first_fault (program_of (formal (codes "X") ∷ []) [] 20) ≡ None }
    ensures program_of_array { first_fault (program_of (array_formal (codes "X") ∷ []) [] 20) ≡ broken 10 24 }
    ensures program_of_channel { first_fault (program_of (FormalChan 1 ∷ []) [] 20) ≡ broken 10 24 }
{}
