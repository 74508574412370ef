//! What follows from the grammar and its readers.

ghost use Rattle.std.specs.Prelude.{ℕ, List, length};
ghost use Rattle.bas_form.specs.Reader.{ReadsLongest};
ghost use Rattle.bas_expr.specs.Lexemes.{Lexeme};
ghost use Rattle.bas_list.specs.Words.{Ends};
ghost use Rattle.bas_statement.specs.Statements.{IsStatement};
ghost use Rattle.bas_statement.specs.Reading.{GoesStatement, statement_at};

/// The reader of statements takes the longest, and no other tree ends there.
#[tactic(auto, using(crate::proofs::StatementLaws::statement_longest))]
pub fn statement_law()
    ensures { (tokens : List Lexeme) → ReadsLongest (length tokens) 1 (IsStatement tokens) (GoesStatement tokens) (statement_at tokens) }
{}

/// No statement goes on where one may end.
pub fn statement_ends_law()
    ensures { (tokens : List Lexeme) (n : ℕ) → Ends tokens n → GoesStatement tokens n → ⊥ }
{}
