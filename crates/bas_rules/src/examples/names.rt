//! Names that are declared twice or used as what they are not.

ghost use Rattle.std.specs.Prelude.{◌≡◌, [], ◌∷◌, Some, None, codes};
ghost use Rattle.bas_ast.specs.Tree.{FormalName, Call, DeclareExternal, FunctionKind, SubKind, DeclarePublic, Share, Public, NumericKind, Substring, Variable, NoExprs};
ghost use Rattle.bas_scope.specs.Examples.{whole, bare, applied, sum_of, args_of, does, sets, declares_at, plain_item, up_to};
ghost use Rattle.bas_rules.specs.Well.{first_fault};
ghost use Rattle.bas_rules.specs.Examples.{broken, main_of, sub_of, function_of, alone, module_of, formal, array_formal, only, number, prints, sets_element, dim, declares_number, definition, sub, for};

/// Rule 1: the later of two declarations or of two kinds; a formal has one `DECLARE`; an internal
/// procedure declares nothing else.
pub fn names_declared_once()
    ensures two_declarations { first_fault (main_of (dim 10 (codes "A") (up_to 3 ∷ []) ∷ dim 20 (codes "A") (up_to 4 ∷ []) ∷ []) 30) ≡ broken 20 1 }
    ensures two_in_one_line { first_fault (main_of (declares_at 10 (DeclarePublic NumericKind (plain_item (codes "A") ∷ plain_item (codes "A") ∷ [])) ∷ []) 20) ≡ broken 10 1 }
    ensures two_kinds { first_fault (main_of (dim 10 (codes "A") (up_to 3 ∷ []) ∷ definition 20 (codes "A") (formal (codes "X") ∷ []) (number 1) ∷ []) 30) ≡ broken 20 1 }
    ensures sub_then_variable { first_fault (main_of (sub 10 (codes "P") [] [] 20 ∷ sets 30 (codes "P") (number 1) ∷ []) 40) ≡ broken 30 1 }
    ensures variable_then_sub { first_fault (main_of (sets 10 (codes "P") (number 1) ∷ sub 20 (codes "P") [] [] 30 ∷ []) 40) ≡ broken 20 1 }
    ensures called_sub_and_variable { first_fault (main_of (does 10 (Call (codes "P") (args_of [])) ∷ sets 20 (codes "P") (number 1) ∷ []) 30) ≡ None }
    ensures formal_once { first_fault (alone (sub_of 10 (formal (codes "X") ∷ []) (declares_number 20 (codes "X") ∷ []) 30)) ≡ None }
    ensures formal_twice { first_fault (alone (sub_of 10 (formal (codes "X") ∷ []) (declares_number 20 (codes "X") ∷ declares_number 30 (codes "X") ∷ []) 40)) ≡ broken 30 1 }
    ensures formal_by_dim { first_fault (alone (sub_of 10 (array_formal (codes "X") ∷ []) (dim 20 (codes "X") (up_to 3 ∷ []) ∷ []) 30)) ≡ broken 20 1 }
    ensures formals_of_one_name { first_fault (alone (sub_of 10 (formal (codes "X") ∷ formal (codes "X") ∷ []) [] 20)) ≡ broken 10 1 }
    ensures formal_as_function { first_fault (alone (function_of 10 (formal (codes "F") ∷ []) [] 20)) ≡ broken 10 1 }
    ensures own_name_declared { first_fault (alone (function_of 10 [] (declares_number 20 (codes "F") ∷ []) 30)) ≡ broken 20 1 }
    ensures own_name_imported { first_fault (alone (function_of 10 [] (declares_at 20 (DeclareExternal FunctionKind (codes "F" ∷ [])) ∷ sets 30 (codes "F") (only (bare (codes "F"))) ∷ []) 40)) ≡ None }
    ensures inside_internal { first_fault (main_of (sub 10 (codes "P") (formal (codes "X") ∷ []) (declares_number 20 (codes "X") ∷ declares_number 30 (codes "Y") ∷ []) 40 ∷ []) 50) ≡ broken 30 1 }
    ensures imported_in_internal { first_fault (main_of (sub 10 (codes "P") [] (declares_at 20 (DeclareExternal SubKind (codes "Q" ∷ [])) ∷ []) 30 ∷ []) 40) ≡ broken 20 1 }
    ensures hidden_by_formal { first_fault (main_of (dim 10 (codes "A") (up_to 3 ∷ []) ∷ sub 20 (codes "P") (formal (codes "A") ∷ []) (sets 30 (codes "A") (number 1) ∷ []) 40 ∷ []) 50) ≡ None }
    ensures of_module_and_procedure { first_fault (module_of (declares_at 20 (Share NumericKind (plain_item (codes "A") ∷ [])) ∷ []) (sub_of 30 [] (dim 40 (codes "A") (up_to 3 ∷ []) ∷ []) 50 ∷ []) 60) ≡ None }
    ensures shared_and_public { first_fault (module_of (declares_at 20 (Share NumericKind (plain_item (codes "A") ∷ [])) ∷ declares_at 30 (Public NumericKind (plain_item (codes "A") ∷ [])) ∷ []) [] 40) ≡ broken 30 1 }
{}

/// Rule 2: an array is declared, and has as many subscripts as dimensions.
pub fn array_uses()
    ensures sound { first_fault (main_of (dim 10 (codes "A") (up_to 3 ∷ up_to 3 ∷ []) ∷ sets_element 20 (codes "A") (number 1 ∷ number 2 ∷ []) (only (applied (codes "A") (whole 1 ∷ whole 1 ∷ []))) ∷ []) 30) ≡ None }
    ensures undeclared { first_fault (main_of (sets_element 10 (codes "A") (number 1 ∷ []) (number 2) ∷ []) 20) ≡ broken 10 2 }
    ensures without_subscript { first_fault (main_of (dim 10 (codes "A") (up_to 3 ∷ []) ∷ prints 20 (only (bare (codes "A"))) ∷ []) 30) ≡ broken 20 2 }
    ensures too_many { first_fault (main_of (dim 10 (codes "A") (up_to 3 ∷ []) ∷ prints 20 (only (applied (codes "A") (whole 1 ∷ whole 1 ∷ []))) ∷ []) 30) ≡ broken 20 2 }
    ensures whole_target { first_fault (main_of (sets 10 (codes "A") (number 1) ∷ dim 20 (codes "A") (up_to 3 ∷ []) ∷ []) 30) ≡ broken 10 2 }
    ensures passed_whole { first_fault (main_of (dim 10 (codes "A") (up_to 3 ∷ []) ∷ does 20 (Call (codes "Q") (args_of (bare (codes "A") ∷ []))) ∷ []) 30) ≡ None }
    ensures array_as_subscript { first_fault (main_of (dim 10 (codes "A") (up_to 3 ∷ []) ∷ prints 20 (only (applied (codes "A") (bare (codes "A") ∷ []))) ∷ []) 30) ≡ broken 20 2 }
    ensures array_to_supplied { first_fault (main_of (dim 10 (codes "A") (up_to 3 ∷ []) ∷ prints 20 (only (applied (codes "ABS") (bare (codes "A") ∷ []))) ∷ []) 30) ≡ broken 20 2 }
    ensures bound_of_scalar { first_fault (main_of (prints 10 (only (applied (codes "LBOUND") (bare (codes "X") ∷ []))) ∷ []) 20) ≡ broken 10 2 }
    ensures bound_of_array { first_fault (main_of (dim 10 (codes "A") (up_to 3 ∷ []) ∷ prints 20 (only (applied (codes "LBOUND") (bare (codes "A") ∷ []))) ∷ []) 30) ≡ None }
    ensures function_with_subscripts { first_fault (main_of (definition 10 (codes "F") (formal (codes "X") ∷ []) (number 1) ∷ sets_element 20 (codes "F") (number 1 ∷ []) (number 2) ∷ []) 30) ≡ broken 20 2 }
{}

/// Rules 16 and 23: a function is set inside of it alone, and a name with arguments is an array or a
/// known function.
pub fn function_uses()
    ensures set_outside { first_fault (main_of (definition 10 (codes "F") [] (number 1) ∷ sets 20 (codes "F") (number 2) ∷ []) 30) ≡ broken 20 16 }
    ensures set_before { first_fault (main_of (sets 10 (codes "F") (number 2) ∷ definition 20 (codes "F") [] (number 1) ∷ []) 30) ≡ broken 10 16 }
    ensures set_in_internal { first_fault (alone (function_of 10 [] (sub 20 (codes "P") [] (sets 30 (codes "F") (number 1) ∷ []) 40 ∷ []) 50)) ≡ None }
    ensures in_substring { first_fault (main_of (definition 10 (codes "F$") [] (only (bare (codes "A$"))) ∷ prints 20 (only (Substring (Variable (codes "F$") NoExprs) (number 1) (number 2))) ∷ []) 30) ≡ broken 20 16 }
    ensures as_counter { first_fault (main_of (definition 10 (codes "F") [] (number 1) ∷ for 20 (codes "F") [] 30 (codes "F") ∷ []) 40) ≡ broken 20 9 }
    ensures no_array_and_no_function { first_fault (main_of (prints 10 (only (applied (codes "A") (whole 1 ∷ []))) ∷ []) 20) ≡ broken 10 23 }
    ensures declared_function { first_fault (main_of (declares_at 10 (DeclareExternal FunctionKind (codes "G" ∷ [])) ∷ prints 20 (only (applied (codes "G") (whole 1 ∷ []))) ∷ []) 30) ≡ None }
    ensures function_called { first_fault (main_of (definition 10 (codes "F") [] (number 1) ∷ does 20 (Call (codes "F") (args_of [])) ∷ []) 30) ≡ broken 20 23 }
    ensures sub_applied { first_fault (main_of (sub 10 (codes "P") (formal (codes "X") ∷ []) [] 20 ∷ prints 30 (only (applied (codes "P") (whole 1 ∷ []))) ∷ []) 40) ≡ broken 30 23 }
    ensures function_of_module { first_fault (module_of (sets 20 (codes "A") (only (applied (codes "F") (whole 1 ∷ []))) ∷ []) (function_of 30 (formal (codes "X") ∷ []) [] 40 ∷ []) 50) ≡ None }
{}
