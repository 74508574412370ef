//! What follows from the grammar and its readers.

ghost use Rattle.std.specs.Prelude.{ℕ, List, length};
ghost use Rattle.bas_form.specs.Reader.{ReadsLongest};
ghost use Rattle.bas_expr.specs.Lexemes.{Lexeme};
ghost use Rattle.bas_list.specs.Words.{Ends};
ghost use Rattle.bas_list.specs.Lists.{IsValues, IsEnclosed, IsTargets, IsPlist};
ghost use Rattle.bas_list.specs.Reading.{values, enclosed_values, targets, print_list, GoesList, GoesPrint};

/// The reader of values takes the longest, and no other tree ends there.
#[tactic(auto, using(crate::proofs::ListLaws::values_longest))]
pub fn values_law()
    ensures { (tokens : List Lexeme) (depth : ℕ) → ReadsLongest (length tokens) 1 (IsValues tokens depth) (GoesList tokens) (values tokens depth) }
{}

/// The reader of values in parentheses takes the longest, and no other tree ends there.
#[tactic(auto, using(crate::proofs::ListLaws::enclosed_values_longest))]
pub fn enclosed_values_law()
    ensures { (tokens : List Lexeme) → ReadsLongest (length tokens) 3 (IsEnclosed tokens) (λ n. ⊥) (enclosed_values tokens) }
{}

/// The reader of targets takes the longest, and no other tree ends there.
#[tactic(auto, using(crate::proofs::ListLaws::targets_longest))]
pub fn targets_law()
    ensures { (tokens : List Lexeme) → ReadsLongest (length tokens) 1 (IsTargets tokens) (GoesList tokens) (targets tokens) }
{}

/// The reader of print lists takes the longest, and no other tree ends there.
#[tactic(auto, using(crate::proofs::PrintLaws::print_list_longest))]
pub fn print_list_law()
    ensures { (tokens : List Lexeme) → ReadsLongest (length tokens) 0 (IsPlist tokens) (GoesPrint tokens) (print_list tokens) }
{}

/// No list goes on where a statement may end.
pub fn ends_law()
    ensures lists { (tokens : List Lexeme) (n : ℕ) → Ends tokens n → GoesList tokens n → ⊥ }
    ensures prints { (tokens : List Lexeme) (n : ℕ) → Ends tokens n → GoesPrint tokens n → ⊥ }
{}
