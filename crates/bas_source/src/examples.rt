//! Worked files, lines and numbers.

ghost use Rattle.std.specs.Prelude.{◌≡◌, ◌∷◌, ◌++◌, [], codes, Some, None};
ghost use Rattle.bas_source.specs.Lines.{logical_lines};
ghost use Rattle.bas_source.specs.Number.{numbered};

/// Worked files: ends of lines, skipped lines, and lines that go on.
#[tactic(auto, unfolding(crate::specs::Lines::plain_text, crate::specs::Lines::lines_of, crate::specs::Lines::joined_from))]
pub fn worked_files()
    ensures ends { logical_lines (codes "10 A" ++ 13 ∷ 10 ∷ codes "20 B") ≡ codes "10 A" ∷ codes "20 B" ∷ [] }
    ensures blank { logical_lines (10 ∷ codes "  " ++ 10 ∷ codes "10 A" ++ 10 ∷ []) ≡ codes "10 A" ∷ [] }
    ensures joined { logical_lines (codes "10 GO&" ++ 10 ∷ codes "&TO 20") ≡ codes "10 GOTO 20" ∷ [] }
    ensures single { logical_lines (codes "10 A&" ++ 10 ∷ codes "&" ++ 10 ∷ codes "&B") ≡ codes "10 AB" ∷ [] }
    ensures alone { logical_lines (codes "10 A&" ++ 10 ∷ codes "20 B") ≡ codes "10 A&" ∷ codes "20 B" ∷ [] }
{}

/// Worked numbers of lines.
pub fn worked_numbers()
    ensures some { numbered (codes "10 END") ≡ Some (10, codes " END") }
    ensures zeros { numbered (codes "00000010") ≡ Some (10, []) }
    ensures long { numbered (codes "000000010") ≡ None }
    ensures large { numbered (codes "100000") ≡ None }
    ensures space { numbered (codes " 10 END") ≡ None }
{}
