//! Worked examples of strings, for proofs alone: each function states what some calls give and does nothing.

ghost use Rattle.std.specs.Prelude.{◌≡◌, pos, negsuc, [], ◌∷◌, codes};
ghost use Rattle.bas_text.specs.Strings.{join, repeat, part, position, upper, lower, compare};
ghost use Rattle.bas_text.specs.Trim.{trim_left, trim_right};

use std::cmp::Ordering;

/// The ends of a part may lie outside the string, and may be the wrong way round.
pub fn worked_parts()
    ensures inside { part (codes "ledger") (pos 2) (pos 4) ≡ codes "edg" }
    ensures from_zero { part (codes "abC") (pos 0) (pos 2) ≡ codes "ab" }
    ensures from_below_zero { part (codes "abc") (negsuc 8) (pos 1) ≡ codes "a" }
    ensures past_the_end { part (codes "abc") (pos 3) (pos 99) ≡ codes "c" }
    ensures behind_the_end { part (codes "abc") (pos 4) (pos 99) ≡ [] }
    ensures wrong_way_round { part (codes "abc") (pos 3) (pos 2) ≡ [] }
    ensures to_below_zero { part (codes "abc") (pos 1) (negsuc 0) ≡ [] }
{}

/// The first place at or after another, counted from 1; the empty string stands up to the length and one.
#[tactic(auto, unfolding(crate::specs::Strings::position))]
pub fn worked_positions()
    ensures first { position (codes "banana") (codes "an") (pos 1) ≡ 2 }
    ensures at_the_place { position (codes "banana") (codes "an") (pos 4) ≡ 4 }
    ensures none_after { position (codes "banana") (codes "an") (pos 5) ≡ 0 }
    ensures from_below_one { position (codes "banana") (codes "b") (negsuc 3) ≡ 1 }
    ensures too_long { position (codes "an") (codes "ana") (pos 1) ≡ 0 }
    ensures empty_at_the_end { position (codes "abc") [] (pos 4) ≡ 4 }
    ensures empty_past_the_end { position (codes "abc") [] (pos 5) ≡ 0 }
    ensures empty_in_empty { position [] [] (negsuc 0) ≡ 1 }
{}

/// Joined and repeated strings, letters, trims and the order.
pub fn worked_strings()
    ensures joined { join (codes "ab") (codes "c") ≡ codes "abc" }
    ensures repeated { repeat 3 (codes "ab") ≡ codes "ababab" }
    ensures not_at_all { repeat 0 (codes "ab") ≡ [] }
    ensures capitals { upper (96 ∷ 97 ∷ 122 ∷ 123 ∷ 228 ∷ []) ≡ 96 ∷ 65 ∷ 90 ∷ 123 ∷ 228 ∷ [] }
    ensures small_letters { lower (64 ∷ 65 ∷ 90 ∷ 91 ∷ 196 ∷ []) ≡ 64 ∷ 97 ∷ 122 ∷ 91 ∷ 196 ∷ [] }
    ensures front { trim_left (codes "  a b ") ≡ codes "a b " }
    ensures end { trim_right (codes " a b  ") ≡ codes " a b" }
    ensures tab_in_front { trim_left (9 ∷ 32 ∷ []) ≡ 9 ∷ 32 ∷ [] }
    ensures tab_at_the_end { trim_right (32 ∷ 9 ∷ 32 ∷ []) ≡ 32 ∷ 9 ∷ [] }
    ensures spaces_alone { trim_right (codes "  ") ≡ [] }
    ensures prefix { compare (codes "ab") (codes "abc") ≡ Ordering.Less }
    ensures capital_first { compare (codes "Z") (codes "a") ≡ Ordering.Less }
    ensures bytes_past_ascii { compare (200 ∷ []) (codes "zz") ≡ Ordering.Greater }
{}
