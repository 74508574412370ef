//! What follows from the grammar and its readers.

ghost use Rattle.std.specs.Prelude.{◌≡◌, ℕ, List, length};
ghost use Rattle.bas_form.specs.Reader.{ReadsLongest};
ghost use Rattle.bas_expr.specs.Lexemes.{Lexeme};
ghost use Rattle.bas_declaration.specs.Declarations.{IsDecl};
ghost use Rattle.bas_declaration.specs.Declaring.{decl_at};
ghost use Rattle.bas_declaration.specs.Parts.{IsPart};
ghost use Rattle.bas_declaration.specs.Reading.{GoesLine, part_at};

/// The reader of parts takes the longest, and no other tree ends there.
#[tactic(auto, using(crate::proofs::PartLaws::part_longest))]
pub fn part_law()
    ensures { (tokens : List Lexeme) → ReadsLongest (length tokens) 1 (IsPart tokens) (GoesLine tokens) (part_at tokens) }
{}

/// The reader of declarations takes the longest, and no other tree ends there.
#[tactic(auto, using(crate::proofs::DeclLaws::decl_longest))]
pub fn decl_law()
    ensures { (tokens : List Lexeme) → ReadsLongest (length tokens) 1 (IsDecl tokens) (GoesLine tokens) (decl_at tokens) }
{}
