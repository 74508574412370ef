//! The interfaces of small units.

ghost use Rattle.std.specs.Prelude.{◌≡◌, [], ◌∷◌, codes, pos};
ghost use Rattle.bas_ast.specs.Tree.{Call, Declare, NumericKind, DeclareExternal, FunctionKind, Group, Public, Private, DeclarePublic};
ghost use Rattle.bas_dec.specs.declared.types.NumType.TheVariants.{General};
ghost use Rattle.bas_face.specs.declared.shape.Shape.TheVariants as shape;
ghost use Rattle.bas_face.specs.declared.face.CallKind.TheVariants as call;
ghost use Rattle.bas_face.specs.declared.face.UnitKind.TheVariants as kind;
ghost use Rattle.bas_scope.specs.Shapes.{unbounded};
ghost use Rattle.bas_scope.specs.Examples.{bare, applied, args_of, does, sets, declares_at, plain_item, typed, digits};
ghost use Rattle.bas_rules.specs.Faces.{face_of};
ghost use Rattle.bas_rules.specs.Examples.{main_of, sub_of, function_of, alone, module_of, formal, only, number};

/// A variable that `CALL` passes has its type, and what stands in parentheses is a value; a function takes
/// values. `PRIVATE` keeps a procedure in its module, and a call of one makes no import.
pub fn interfaces()
    ensures program { face_of (main_of (declares_at 10 (Declare NumericKind (typed 8 2 (plain_item (codes "V")) ∷ [])) ∷ does 20 (Call (codes "Q") (args_of (bare (codes "V") ∷ Group (only (bare (codes "V"))) ∷ []))) ∷ []) 30) ≡ (record { unit = codes "MAIN"; kind = kind.Program; exports = []; imports = record { name = codes "Q"; kind = call.Sub; actuals = shape.Num (digits 8 2) ∷ shape.NumValue ∷ [] } ∷ []; publics = []; uses = [] }) }
    ensures procedure { face_of (alone (sub_of 10 (formal (codes "A") ∷ []) (declares_at 20 (Declare NumericKind (typed 10 2 (plain_item (codes "A")) ∷ [])) ∷ []) 30)) ≡ (record { unit = codes "P"; kind = kind.Procedure; exports = record { name = codes "P"; kind = call.Sub; formals = shape.Num (digits 10 2) ∷ []; body = 0 } ∷ []; imports = []; publics = []; uses = [] }) }
    ensures function { face_of (alone (function_of 10 (formal (codes "X") ∷ []) (declares_at 20 (DeclareExternal FunctionKind (codes "G" ∷ [])) ∷ declares_at 30 (DeclarePublic NumericKind (typed 4 2 (plain_item (codes "R")) ∷ [])) ∷ sets 40 (codes "F") (only (applied (codes "G") (bare (codes "X") ∷ []))) ∷ []) 50)) ≡ (record { unit = codes "F"; kind = kind.Procedure; exports = record { name = codes "F"; kind = call.Function; formals = shape.Num General ∷ []; body = 0 } ∷ []; imports = record { name = codes "G"; kind = call.Function; actuals = shape.NumValue ∷ [] } ∷ []; publics = []; uses = record { name = codes "R"; cell = unbounded (shape.Num (digits 4 2)) } ∷ [] }) }
    ensures module_part { face_of (module_of (declares_at 20 (Public NumericKind (typed 4 2 (plain_item (codes "R")) ∷ [])) ∷ declares_at 30 (Private (codes "P" ∷ [])) ∷ does 40 (Call (codes "P") (args_of [])) ∷ []) (sub_of 50 [] [] 60 ∷ function_of 70 [] [] 80 ∷ []) 90) ≡ (record { unit = codes "M"; kind = kind.Module; exports = record { name = codes "F"; kind = call.Function; formals = []; body = 2 } ∷ []; imports = []; publics = record { name = codes "R"; cell = unbounded (shape.Num (digits 4 2)) } ∷ []; uses = [] }) }
{}
