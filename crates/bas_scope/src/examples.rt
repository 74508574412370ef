//! What the names of small units stand for.

ghost use Rattle.std.specs.Prelude.{◌≡◌, [], ◌∷◌, Some, None, pos, true, false, codes, map};
ghost use Rattle.bas_dec.specs.declared.types.NumType.TheVariants.{General};
ghost use Rattle.bas_face.specs.declared.shape.Shape.TheVariants as shape;
ghost use Rattle.bas_scope.specs.Supplied.{nothing};
ghost use Rattle.bas_scope.specs.Scope.{Supplied, SubOf, FunctionOf, Here, Container, InModule, OtherUnit};
ghost use Rattle.bas_scope.specs.Bodies.{outer_of, datums_of, uses_of};
ghost use Rattle.bas_scope.specs.Examples.{typed_program, nested_program, lone_function, small_module, stands_in, called_in, variables_in, handlers_in, formals_in, value_in, digits, scalar, array};

/// `10 PROGRAM P(X, A$)`, `20 OPTION ARITHMETIC FIXED*8.2`, `30 OPTION BASE 0`,
/// `40 DECLARE NUMERIC X, T*4.1`, `50 DIM M(3, 2 TO 4), B$(2)*10`, `60 LET N = X + RND`, ..: a name
/// that is declared without a type is general, one that is not declared has the type of the option.
pub fn types_and_bounds()
    ensures formal { stands_in typed_program 0 (codes "X") ≡ scalar Here (shape.Num General) }
    ensures text { stands_in typed_program 0 (codes "A$") ≡ scalar Here (shape.Str 65535) }
    ensures declared { stands_in typed_program 0 (codes "T") ≡ scalar Here (shape.Num (digits 4 1)) }
    ensures table { stands_in typed_program 0 (codes "M") ≡ array Here (shape.NumArray General 2) ((pos 0, pos 3) ∷ (pos 2, pos 4) ∷ []) }
    ensures texts { stands_in typed_program 0 (codes "B$") ≡ array Here (shape.StrArray 10 1) ((pos 0, pos 2) ∷ []) }
    ensures undeclared { stands_in typed_program 0 (codes "N") ≡ scalar Here (shape.Num (digits 8 2)) }
    ensures supplied { stands_in typed_program 0 (codes "RND") ≡ Some (Supplied nothing) }
    ensures own { variables_in typed_program 0 ≡ Some (codes "T" ∷ codes "M" ∷ codes "B$" ∷ codes "N" ∷ []) }
{}

/// `10 DIM A(3)`, `20 LET T = F(2) + S`, `30 CALL P(T)`, `40 DEF F(X) = X + K`, `50 SUB P(Q, #1)`,
/// `60 DECLARE NUMERIC Q*5.2`, `70 LET W = Q + T`, `80 END SUB`, `90 FUNCTION G(A)`, `100 LET G = A`, ..:
/// an internal procedure has its formals, and shares all other names with its container.
pub fn internal_procedures_share()
    ensures definition { stands_in nested_program 0 (codes "F") ≡ Some (FunctionOf Here (Some (shape.Num General ∷ [])) None) }
    ensures called { called_in nested_program 0 (codes "P") ≡ Some (SubOf Here (Some (shape.Num (digits 5 2) ∷ shape.Channel ∷ []))) }
    ensures formal { stands_in nested_program 2 (codes "Q") ≡ scalar Here (shape.Num (digits 5 2)) }
    ensures shared { stands_in nested_program 2 (codes "W") ≡ scalar Container (shape.Num General) }
    ensures sibling { stands_in nested_program 2 (codes "F") ≡ Some (FunctionOf Container (Some (shape.Num General ∷ [])) None) }
    ensures array_of_container { stands_in nested_program 2 (codes "A") ≡ array Container (shape.NumArray General 1) ((pos 1, pos 3) ∷ []) }
    ensures hidden { stands_in nested_program 3 (codes "A") ≡ scalar Here (shape.Num General) }
    ensures inside { stands_in nested_program 3 (codes "G") ≡ Some (FunctionOf Container (Some (shape.Num General ∷ [])) (Some Here)) }
    ensures own { variables_in nested_program 0 ≡ Some (codes "A" ∷ codes "T" ∷ codes "S" ∷ codes "K" ∷ codes "W" ∷ []) }
    ensures no_value { value_in nested_program 2 ≡ Some None }
    ensures value { value_in nested_program 3 ≡ Some (Some (shape.Num General)) }
    ensures handlers { handlers_in nested_program 0 ≡ Some (codes "H" ∷ []) }
    ensures datums { datums_of nested_program ≡ (record { quoted = false; text = codes "1" } ∷ record { quoted = true; text = codes "x" } ∷ []) }
{}

/// `10 EXTERNAL FUNCTION F(X, B())`, `20 DECLARE EXTERNAL FUNCTION G`, `30 DECLARE PUBLIC NUMERIC R*4.2`,
/// ..: other units have what is declared external or public, and every `SUB` that is called here.
pub fn names_of_other_units()
    ensures itself { stands_in lone_function 0 (codes "F") ≡ Some (FunctionOf OtherUnit None (Some Here)) }
    ensures declared { stands_in lone_function 0 (codes "G") ≡ Some (FunctionOf OtherUnit None None) }
    ensures formal { stands_in lone_function 0 (codes "B") ≡ scalar Here (shape.NumArray General 1) }
    ensures formals { formals_in lone_function 0 ≡ Some (shape.Num General ∷ shape.NumArray General 1 ∷ []) }
    ensures used { stands_in lone_function 0 (codes "R") ≡ scalar OtherUnit (shape.Num (digits 4 2)) }
    ensures called { called_in lone_function 0 (codes "X") ≡ Some (SubOf OtherUnit None) }
    ensures uses { map (λ x. x.0) (uses_of lone_function) ≡ (codes "R" ∷ []) }
    ensures own { variables_in lone_function 0 ≡ Some [] }
{}

/// `10 MODULE M`, `20 SHARE STRING N$(2)`, `30 PUBLIC NUMERIC R*4.2`, `40 LET I = 1`, `50 EXTERNAL SUB Q(A)`,
/// `60 DECLARE NUMERIC R`, `70 LET A = H(1) + I`, `80 END SUB`, `90 EXTERNAL FUNCTION H(X)`, `100 CALL Q(R)`,
/// ..: its procedures see the module's variables, which their own declarations hide, and each other.
pub fn names_of_a_module()
    ensures cells { map (λ x. x.0) (outer_of small_module).variables ≡ (codes "R" ∷ codes "N$" ∷ []) }
    ensures public { stands_in small_module 0 (codes "R") ≡ scalar InModule (shape.Num (digits 4 2)) }
    ensures local { stands_in small_module 0 (codes "I") ≡ scalar Here (shape.Num General) }
    ensures other_local { variables_in small_module 1 ≡ Some (codes "R" ∷ codes "I" ∷ []) }
    ensures hidden { stands_in small_module 1 (codes "R") ≡ scalar Here (shape.Num General) }
    ensures seen { stands_in small_module 2 (codes "R") ≡ scalar InModule (shape.Num (digits 4 2)) }
    ensures shared { stands_in small_module 2 (codes "N$") ≡ array InModule (shape.StrArray 65535 1) ((pos 1, pos 2) ∷ []) }
    ensures function { stands_in small_module 1 (codes "H") ≡ Some (FunctionOf InModule (Some (shape.Num General ∷ [])) None) }
    ensures inside { stands_in small_module 2 (codes "H") ≡ Some (FunctionOf InModule (Some (shape.Num General ∷ [])) (Some Here)) }
    ensures called { called_in small_module 2 (codes "Q") ≡ Some (SubOf InModule (Some (shape.Num General ∷ []))) }
{}
