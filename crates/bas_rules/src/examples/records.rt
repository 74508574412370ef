//! Attributes of `OPEN`, and what a statement may wait for.

ghost use Rattle.std.specs.Prelude.{◌≡◌, [], ◌∷◌, Some, None, codes};
ghost use Rattle.bas_ast.specs.Tree.{Open, Attr, OfOrganization, OfRectype, OfAccess, OfRecsize, Stream, Sequential, Relative, Display, Internal, AccessInput, AccessOutput, ReadChan, Write, Delete, Missing, There, MissExitDo, MissGoto, Variable, NoExprs};
ghost use Rattle.bas_scope.specs.Examples.{does};
ghost use Rattle.bas_rules.specs.Well.{first_fault};
ghost use Rattle.bas_rules.specs.Examples.{broken, main_of, number, opens};

/// Rules 19, 21 and, for `IF MISSING`, 4 and 6.
pub fn attributes_and_waits()
    ensures defaults { first_fault (main_of (opens 10 [] ∷ []) 20) ≡ None }
    ensures internal { first_fault (main_of (opens 10 (OfOrganization Relative ∷ OfRectype Internal ∷ OfRecsize 1024 ∷ []) ∷ []) 20) ≡ None }
    ensures display { first_fault (main_of (opens 10 (OfOrganization Stream ∷ []) ∷ []) 20) ≡ broken 10 19 }
    ensures sequential_of_both { first_fault (main_of (opens 10 (OfRectype Internal ∷ OfOrganization Sequential ∷ []) ∷ []) 20) ≡ None }
    ensures access_twice { first_fault (main_of (opens 10 (OfAccess AccessInput ∷ OfAccess AccessOutput ∷ []) ∷ []) 20) ≡ broken 10 19 }
    ensures size_15 { first_fault (main_of (opens 10 (OfRecsize 15 ∷ []) ∷ []) 20) ≡ broken 10 19 }
    ensures missing { first_fault (main_of (does 10 (ReadChan (record { number = number 1 }) None (Some (record { when = Missing; goes = MissGoto 20 })) (Variable (codes "A") NoExprs ∷ [])) ∷ []) 20) ≡ None }
    ensures there_of_reading { first_fault (main_of (does 10 (Delete (record { number = number 1 }) None (Some (record { when = There; goes = MissGoto 20 }))) ∷ []) 20) ≡ broken 10 21 }
    ensures missing_of_writing { first_fault (main_of (does 10 (Write (record { number = number 1 }) None (Some (record { when = Missing; goes = MissGoto 20 })) (number 1 ∷ [])) ∷ []) 20) ≡ broken 10 21 }
    ensures missing_to_no_line { first_fault (main_of (does 10 (Delete (record { number = number 1 }) None (Some (record { when = Missing; goes = MissGoto 15 }))) ∷ []) 20) ≡ broken 10 4 }
    ensures missing_out_of_nothing { first_fault (main_of (does 10 (Delete (record { number = number 1 }) None (Some (record { when = Missing; goes = MissExitDo }))) ∷ []) 20) ≡ broken 10 6 }
{}
