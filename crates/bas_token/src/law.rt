//! What follows from being the tokens of a line.

ghost use Rattle.std.specs.Prelude.{◌≤◌, ℕ, List, length};
ghost use Rattle.bas_token.specs.Tokens.{AreTokens, AreInOrder};
ghost use Rattle.bas_token.specs.declared.token.Token.{Token};

/// The tokens of a line lie in it one behind another, each of at least one byte. So there are no more of
/// them than bytes.
pub fn tokens_in_order()
    ensures order { (line : List ℕ) (tokens : List Token) → AreTokens line tokens → AreInOrder (length line) 0 tokens }
    ensures count { (line : List ℕ) (tokens : List Token) → AreTokens line tokens → length tokens ≤ length line }
{}
