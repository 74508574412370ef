//! Numbers where strings are wanted, and strings where numbers are.

ghost use Rattle.std.specs.Prelude.{◌≡◌, [], ◌∷◌, Some, None, true, false, codes};
ghost use Rattle.bas_ast.specs.Tree.{Join, Add, MoreTerms, NoTerms, Sum, Quoted, Call, Open, LineInput, Input, CauseException, Variable, NoExprs, Declare, NumericKind, StringKind, OnGoto, OfSimple, Single, PrintChan};
ghost use Rattle.bas_scope.specs.Examples.{whole, bare, applied, sum_of, args_of, does, sets, declares_at, line_at, plain_item, up_to, term_of};
ghost use Rattle.bas_rules.specs.Well.{first_fault};
ghost use Rattle.bas_rules.specs.Examples.{broken, main_of, formal, only, number, text, prints, dim, definition, sub, decides, sets_element};

/// Rule 3: operands, targets, prompts, names of files, declared names and arguments have their kind.
pub fn operands_have_their_kinds()
    ensures target { first_fault (main_of (sets 10 (codes "A") (text (codes "x")) ∷ []) 20) ≡ broken 10 3 }
    ensures text_target { first_fault (main_of (sets 10 (codes "A$") (text (codes "x")) ∷ []) 20) ≡ None }
    ensures sum { first_fault (main_of (prints 10 (sum_of (whole 1) (Quoted (codes "b") ∷ [])) ∷ []) 20) ≡ broken 10 3 }
    ensures joined { first_fault (main_of (prints 10 (Sum None (term_of (Quoted (codes "a"))) (MoreTerms Join (term_of (whole 1)) NoTerms)) ∷ []) 20) ≡ broken 10 3 }
    ensures joined_texts { first_fault (main_of (prints 10 (Sum None (term_of (Quoted (codes "a"))) (MoreTerms Join (term_of (bare (codes "B$"))) NoTerms)) ∷ []) 20) ≡ None }
    ensures sum_joined { first_fault (main_of (prints 10 (Sum None (term_of (whole 1)) (MoreTerms Add (term_of (whole 2)) (MoreTerms Join (term_of (bare (codes "B$"))) NoTerms))) ∷ []) 20) ≡ broken 10 3 }
    ensures relation { first_fault (main_of (decides 10 (number 1) (text (codes "a")) [] 20 ∷ []) 30) ≡ broken 10 3 }
    ensures subscript { first_fault (main_of (dim 10 (codes "A") (up_to 3 ∷ []) ∷ sets_element 20 (codes "A") (text (codes "x") ∷ []) (number 1) ∷ []) 30) ≡ broken 20 3 }
    ensures prompt { first_fault (main_of (does 10 (Input (Some (number 1)) (Variable (codes "A") NoExprs ∷ [])) ∷ []) 20) ≡ broken 10 3 }
    ensures whole_line { first_fault (main_of (does 10 (LineInput None (Variable (codes "A") NoExprs ∷ [])) ∷ []) 20) ≡ broken 10 3 }
    ensures file_name { first_fault (main_of (does 10 (Open (record { number = number 1 }) (number 1) []) ∷ []) 20) ≡ broken 10 3 }
    ensures channel { first_fault (main_of (does 10 (PrintChan (record { number = text (codes "1") }) None) ∷ []) 20) ≡ broken 10 3 }
    ensures cause { first_fault (main_of (does 10 (CauseException (text (codes "1"))) ∷ []) 20) ≡ broken 10 3 }
    ensures index { first_fault (main_of (Single (line_at 10 (OfSimple (OnGoto (text (codes "1")) (10 ∷ []) None))) ∷ []) 20) ≡ broken 10 3 }
    ensures declared_number { first_fault (main_of (declares_at 10 (Declare NumericKind (plain_item (codes "A$") ∷ [])) ∷ []) 20) ≡ broken 10 3 }
    ensures declared_text { first_fault (main_of (declares_at 10 (Declare StringKind (plain_item (codes "A") ∷ [])) ∷ []) 20) ≡ broken 10 3 }
    ensures argument { first_fault (main_of (does 10 (Call (codes "P") (args_of (Quoted (codes "x") ∷ []))) ∷ sub 20 (codes "P") (formal (codes "X") ∷ []) [] 30 ∷ []) 40) ≡ broken 10 3 }
    ensures supplied { first_fault (main_of (prints 10 (only (applied (codes "LEN") (whole 1 ∷ []))) ∷ []) 20) ≡ broken 10 3 }
    ensures definition_value { first_fault (main_of (definition 10 (codes "F") [] (text (codes "x")) ∷ []) 20) ≡ broken 10 3 }
{}
