//! What follows from the grammar and its readers.

ghost use Rattle.std.specs.Prelude.{ℕ, List, length, All};
ghost use Rattle.bas_token.specs.Tokens.{AreTokens};
ghost use Rattle.bas_token.specs.declared.token.Token.{Token};
ghost use Rattle.bas_expr.specs.TokenLine.{LiesIn};
ghost use Rattle.bas_form.specs.Reader.{ReadsLongest};
ghost use Rattle.bas_expr.specs.Lexemes.{Lexeme};
ghost use Rattle.bas_expr.specs.Grammar.{IsExpr};
ghost use Rattle.bas_expr.specs.Reading.{GoesExpr, expr};
ghost use Rattle.bas_expr.specs.Conditions.{IsCond};
ghost use Rattle.bas_expr.specs.Testing.{GoesCond, cond};

/// The reader of expressions takes the longest, and no other tree ends there.
#[tactic(auto, using(crate::proofs::ExpressionLaws::expr_longest))]
pub fn expression_law()
    ensures { (tokens : List Lexeme) (depth : ℕ) → ReadsLongest (length tokens) 1 (IsExpr tokens depth) (GoesExpr tokens) (expr tokens depth) }
{}

/// The reader of conditions takes the longest, and no other tree ends there.
#[tactic(auto, using(crate::proofs::ConditionLaws::cond_longest))]
pub fn condition_law()
    ensures { (tokens : List Lexeme) (depth : ℕ) → ReadsLongest (length tokens) 1 (IsCond tokens depth) (GoesCond tokens) (cond tokens depth) }
{}

/// The tokens of a line lie in it, as `expr` and `cond` need.
#[tactic(auto, using(crate::proofs::TokenLaws::tokens_lie))]
pub fn tokens_lie()
    ensures { (line : List ℕ) (tokens : List Token) → AreTokens line tokens → All (LiesIn line) tokens }
{}
