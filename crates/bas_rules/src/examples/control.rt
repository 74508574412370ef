//! Jumps, exits, handlers, loops and cases.

ghost use Rattle.std.specs.Prelude.{◌≡◌, [], ◌∷◌, Some, None, true, false, codes};
ghost use Rattle.bas_ast.specs.Tree.{Goto, Gosub, ExitDo, ExitFor, ExitSub, ExitFunction, ExitHandler, Retry, Continue, Restore, Data, WhenExceptionUse, EndWhen, Case, OneOf, FromTo, Is, Less, ConstQuoted, Chain};
ghost use Rattle.bas_scope.specs.Examples.{whole, bare, does, sets, declares_at, nest};
ghost use Rattle.bas_rules.specs.Well.{first_fault};
ghost use Rattle.bas_rules.specs.Examples.{broken, main_of, sub_of, alone, module_of, only, number, text, definition, sub, loop, for, selects, handled, handler, decides, constant};

/// Rules 4 to 6 and 17: jumps go to counted lines of the same or an enclosing block, `GOSUB` to the top
/// of the body, `EXIT` out of such a construct, `RESTORE` to a `DATA` line.
pub fn blocks_and_jumps()
    ensures no_line { first_fault (main_of (does 10 (Goto 15) ∷ []) 20) ≡ broken 10 4 }
    ensures to_end { first_fault (main_of (does 10 (Goto 20) ∷ []) 20) ≡ None }
    ensures into_block { first_fault (main_of (does 10 (Goto 30) ∷ loop 20 (sets 30 (codes "A") (number 1) ∷ []) 40 ∷ []) 50) ≡ broken 10 4 }
    ensures out_of_block { first_fault (main_of (loop 10 (does 20 (Goto 10) ∷ does 30 (Goto 40) ∷ []) 40 ∷ []) 50) ≡ None }
    ensures to_declaration { first_fault (main_of (does 10 (Goto 20) ∷ declares_at 20 (Data []) ∷ []) 30) ≡ broken 10 4 }
    ensures to_definition { first_fault (main_of (does 10 (Goto 20) ∷ definition 20 (codes "F") [] (number 1) ∷ []) 30) ≡ broken 10 4 }
    ensures to_end_if { first_fault (main_of (decides 10 (number 1) (number 1) (does 20 (Goto 30) ∷ []) 30 ∷ []) 40) ≡ broken 20 4 }
    ensures out_of_procedure { first_fault (main_of (sub 10 (codes "P") [] (does 20 (Goto 40) ∷ []) 30 ∷ []) 40) ≡ broken 20 4 }
    ensures out_of_handler { first_fault (main_of (handler 10 (codes "H") (does 20 (Goto 40) ∷ []) 30 ∷ []) 40) ≡ broken 20 4 }
    ensures inside_handler { first_fault (main_of (handler 10 (codes "H") (sets 20 (codes "A") (number 1) ∷ does 30 (Goto 20) ∷ []) 40 ∷ []) 50) ≡ None }
    ensures gosub { first_fault (main_of (does 10 (Gosub 40) ∷ loop 20 [] 30 ∷ sets 40 (codes "A") (number 1) ∷ []) 50) ≡ None }
    ensures gosub_into_block { first_fault (main_of (loop 10 (does 20 (Gosub 20) ∷ []) 30 ∷ []) 40) ≡ broken 20 5 }
    ensures exit_do { first_fault (main_of (loop 10 (for 20 (codes "I") (does 30 ExitDo ∷ does 40 ExitFor ∷ []) 50 (codes "I") ∷ []) 60 ∷ []) 70) ≡ None }
    ensures exit_do_outside { first_fault (main_of (for 10 (codes "I") (does 20 ExitDo ∷ []) 30 (codes "I") ∷ []) 40) ≡ broken 20 6 }
    ensures exit_for_outside { first_fault (main_of (loop 10 (does 20 ExitFor ∷ []) 30 ∷ []) 40) ≡ broken 20 6 }
    ensures exit_sub { first_fault (alone (sub_of 10 [] (does 20 ExitSub ∷ []) 30)) ≡ None }
    ensures exit_sub_outside { first_fault (main_of (does 10 ExitSub ∷ []) 20) ≡ broken 10 6 }
    ensures exit_function_outside { first_fault (main_of (sub 10 (codes "P") [] (does 20 ExitFunction ∷ []) 30 ∷ []) 40) ≡ broken 20 6 }
    ensures restore { first_fault (main_of (does 10 (Restore (Some 20)) ∷ declares_at 20 (Data []) ∷ []) 30) ≡ None }
    ensures restore_elsewhere { first_fault (main_of (does 10 (Restore (Some 10)) ∷ declares_at 20 (Data []) ∷ []) 30) ≡ broken 10 17 }
{}

/// Rules 7 to 10 and 22: `RETRY`, `CONTINUE` and `EXIT HANDLER` stand in a handler, handlers have one name
/// each, `FOR` counts by a numeric scalar of its own, cases have the selector's kind and rise.
#[tactic(auto, unfolding(bas_dec::specs::Arithmetic::order_of))]
pub fn handlers_and_loops()
    ensures retry { first_fault (main_of (handled 10 [] 20 (does 30 Retry ∷ []) 40 ∷ []) 50) ≡ None }
    ensures retry_outside { first_fault (main_of (handled 10 (does 20 Retry ∷ []) 30 [] 40 ∷ []) 50) ≡ broken 20 7 }
    ensures exit_handler { first_fault (main_of (handler 10 (codes "H") (does 20 ExitHandler ∷ []) 30 ∷ []) 40) ≡ None }
    ensures continue_outside { first_fault (main_of (does 10 Continue ∷ []) 20) ≡ broken 10 7 }
    ensures use_of_handler { first_fault (main_of (nest 10 (WhenExceptionUse (codes "H")) [] 20 EndWhen ∷ handler 30 (codes "H") [] 40 ∷ []) 50) ≡ None }
    ensures no_handler { first_fault (main_of (nest 10 (WhenExceptionUse (codes "H")) [] 20 EndWhen ∷ []) 30) ≡ broken 10 8 }
    ensures two_handlers { first_fault (main_of (handler 10 (codes "H") [] 20 ∷ handler 30 (codes "H") [] 40 ∷ []) 50) ≡ broken 30 8 }
    ensures text_counter { first_fault (main_of (for 10 (codes "A$") [] 20 (codes "A$") ∷ []) 30) ≡ broken 10 9 }
    ensures counter_twice { first_fault (main_of (for 10 (codes "I") (for 20 (codes "I") [] 30 (codes "I") ∷ []) 40 (codes "I") ∷ []) 50) ≡ broken 20 9 }
    ensures other_next { first_fault (main_of (for 10 (codes "I") (for 20 (codes "J") [] 30 (codes "I") ∷ []) 40 (codes "I") ∷ []) 50) ≡ broken 30 9 }
    ensures case { first_fault (main_of (selects 10 (only (bare (codes "A"))) 20 (FromTo (constant 3) (constant 5)) 30 ∷ []) 40) ≡ None }
    ensures case_kind { first_fault (main_of (selects 10 (only (bare (codes "A"))) 20 (OneOf (ConstQuoted (codes "x"))) 30 ∷ []) 40) ≡ broken 20 10 }
    ensures case_falls { first_fault (main_of (selects 10 (only (bare (codes "A"))) 20 (FromTo (constant 5) (constant 3)) 30 ∷ []) 40) ≡ broken 20 10 }
    ensures case_texts { first_fault (main_of (selects 10 (only (bare (codes "A$"))) 20 (FromTo (ConstQuoted (codes "b")) (ConstQuoted (codes "a"))) 30 ∷ []) 40) ≡ broken 20 10 }
    ensures case_relation { first_fault (main_of (selects 10 (only (bare (codes "A$"))) 20 (Is Less (constant 1)) 30 ∷ []) 40) ≡ broken 20 10 }
    ensures chain { first_fault (main_of (does 10 (Chain (text (codes "P")) []) ∷ []) 20) ≡ None }
    ensures chain_in_module { first_fault (module_of (does 20 (Chain (text (codes "P")) []) ∷ []) [] 30) ≡ broken 20 22 }
{}
