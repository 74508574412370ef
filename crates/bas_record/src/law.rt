//! What follows from the grammar and its reader.

ghost use Rattle.std.specs.Prelude.{List, length};
ghost use Rattle.bas_form.specs.Reader.{ReadsLongest};
ghost use Rattle.bas_expr.specs.Lexemes.{Lexeme};
ghost use Rattle.bas_record.specs.Records.{IsRecordStatement, GoesRecord};
ghost use Rattle.bas_record.specs.Recording.{record_statement_at};

/// The reader of statements on channels takes the longest, and no other tree ends there.
#[tactic(auto, using(crate::proofs::RecordLaws::record_statement_longest))]
pub fn record_statement_law()
    ensures { (tokens : List Lexeme) → ReadsLongest (length tokens) 1 (IsRecordStatement tokens) (GoesRecord tokens) (record_statement_at tokens) }
{}
