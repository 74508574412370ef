//! Worked print lines, computed from the definitions.

ghost use Rattle.std.specs.Prelude.{◌≡◌, [], ◌∷◌, ◌++◌, replicate};
ghost use Rattle.bas_console.specs.Layout.{item, comma, tab, line_end};

/// Items at a margin of 80.
#[tactic(auto, unfolding(crate::specs::Layout::item, crate::specs::Layout::wrapped))]
pub fn worked_items()
    ensures empty { item 80 [] 80 ≡ record { bytes = []; column = 80 } }
    ensures just_fits { item 80 (replicate 20 65) 60 ≡ record { bytes = replicate 20 65; column = 80 } }
    ensures one_too_many { item 80 (replicate 21 65) 60 ≡ record { bytes = 10 ∷ replicate 21 65; column = 21 } }
    ensures full_line { item 80 (65 ∷ []) 80 ≡ record { bytes = 10 ∷ 65 ∷ []; column = 1 } }
    ensures whole_line { item 80 (replicate 80 65) 0 ≡ record { bytes = replicate 80 65; column = 80 } }
    ensures whole_next_line { item 80 (replicate 80 65) 1 ≡ record { bytes = 10 ∷ replicate 80 65; column = 80 } }
    ensures cut_81 { item 80 (replicate 81 65) 0 ≡ record { bytes = replicate 80 65 ++ 10 ∷ 65 ∷ []; column = 1 } }
    ensures cut_160 { item 80 (replicate 160 65) 0 ≡ record { bytes = replicate 80 65 ++ 10 ∷ replicate 80 65; column = 80 } }
    ensures cut_161 { item 80 (replicate 161 65) 1 ≡ record { bytes = 10 ∷ replicate 80 65 ++ 10 ∷ replicate 80 65 ++ 10 ∷ 65 ∷ []; column = 1 } }
{}

/// Commas at a margin of 80: the last zone begins at 64.
#[tactic(auto, unfolding(crate::specs::Layout::comma))]
pub fn worked_commas()
    ensures first { comma 80 0 ≡ record { bytes = replicate 16 32; column = 16 } }
    ensures at_63 { comma 80 63 ≡ record { bytes = 32 ∷ []; column = 64 } }
    ensures at_64 { comma 80 64 ≡ line_end 64 }
    ensures at_79 { comma 80 79 ≡ line_end 79 }
    ensures at_80 { comma 80 80 ≡ line_end 80 }
    ensures no_zone { comma 16 0 ≡ line_end 0 }
    ensures last_of_a_channel { comma 65535 65519 ≡ record { bytes = 32 ∷ []; column = 65520 } }
    ensures end_of_a_channel { comma 65535 65520 ≡ line_end 65520 }
{}

/// `TAB`s at a margin of 80.
#[tactic(auto, unfolding(crate::specs::Layout::tab))]
pub fn worked_tabs()
    ensures ahead { tab 80 11 4 ≡ record { bytes = replicate 6 32; column = 10 } }
    ensures here { tab 80 11 10 ≡ record { bytes = []; column = 10 } }
    ensures behind { tab 80 5 10 ≡ record { bytes = 10 ∷ replicate 4 32; column = 4 } }
    ensures last_place { tab 80 80 0 ≡ record { bytes = replicate 79 32; column = 79 } }
    ensures tab_81 { tab 80 81 0 ≡ record { bytes = []; column = 0 } }
    ensures tab_81_behind { tab 80 81 7 ≡ record { bytes = 10 ∷ []; column = 0 } }
    ensures full_line { tab 80 80 80 ≡ record { bytes = 10 ∷ replicate 79 32; column = 79 } }
    ensures two_margins { tab 80 165 2 ≡ record { bytes = 32 ∷ 32 ∷ []; column = 4 } }
{}
