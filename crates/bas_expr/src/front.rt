//! The expression and the condition that a token begins.

ghost use Rattle.std.specs.Prelude.{◌≡◌, ℕ, ◌≤◌, length, All, IfOk, IsErrOf};
ghost use Rattle.bas_expr.specs.TokenLine.{LiesIn};
ghost use Rattle.bas_expr.specs.Lexemes.{lexemes};
ghost use Rattle.bas_expr.specs.Grammar.{IsExpr, levels};
ghost use Rattle.bas_expr.specs.Conditions.{IsCond};
ghost use Rattle.bas_ast.specs.declared.expression.Expr.{Expr};
ghost use Rattle.bas_ast.specs.declared.condition.Cond.{Cond};

use crate::LEVELS;
use crate::condition::longest_cond;
use crate::expression::longest_expr;
use crate::token_line::TokenLine;
use bas_ast::{Cond, Expr};
use bas_token::Token;
use std::alloc::{AllocError, Global};

/// Why there is no expression or condition.
#[derive(Clone, Copy, Debug, PartialEq, Eq)]
pub enum ExprFault {
    /// None begins at this token.
    NotExpr {
        /// The token's place, counted from 0.
        at: usize,
    },
    /// There was no memory for it.
    Memory,
}

impl From<AllocError> for ExprFault {
    ghost use Rattle.std.specs.Prelude.{◌≡◌};
    ghost use Rattle.bas_expr.specs.declared.front.ExprFault.TheVariants.{Memory};

    ghost from_gives = { λ _ e. e ≡ Memory };

    fn from(_: AllocError) -> ExprFault {
        ExprFault::Memory
    }
}

/// The longest expression from token `at` on, with at most 64 parentheses open at a place, and the
/// place after it, counted in tokens from 0. `NotExpr` comes exactly where none begins there.
pub fn expr(
    alloc: Global,
    line: &[u8],
    tokens: &[Token],
    at: usize,
) -> Result<(Expr, usize), ExprFault>
    requires short { length line.now ≤ 4096 }
    requires lie { All (LiesIn line.now) tokens.now }
    requires few { length tokens.now ≤ 4096 }
    requires inside { at ≤ length tokens.now }
    ensures found { IfOk result (λ r. IsExpr (lexemes line.now tokens.now) levels at r.0 r.1) }

    // Every expression from there on ends there or before, and one tree ends there.
    ensures longest { IfOk result (λ r. (e : Expr) (next : ℕ) → IsExpr (lexemes line.now tokens.now) levels at e next → next ≤ r.1) }
    ensures only { IfOk result (λ r. (e : Expr) → IsExpr (lexemes line.now tokens.now) levels at e r.1 → e ≡ r.0) }
    ensures none { IsErrOf result (ExprFault.NotExpr at) → (e : Expr) (next : ℕ) → IsExpr (lexemes line.now tokens.now) levels at e next → ⊥ }
    ensures place { (n : ℕ) → IsErrOf result (ExprFault.NotExpr n) → n ≡ at }
{
    let token_line = TokenLine::new(line, tokens);
    match longest_expr(alloc, &token_line, at, LEVELS)? {
        Some(found) => Ok(found),
        None => Err(ExprFault::NotExpr { at }),
    }
}

/// The longest condition from token `at` on, with at most 64 parentheses open at a place, and the
/// place after it, counted in tokens from 0. `NotExpr` comes exactly where none begins there.
pub fn cond(
    alloc: Global,
    line: &[u8],
    tokens: &[Token],
    at: usize,
) -> Result<(Cond, usize), ExprFault>
    requires short { length line.now ≤ 4096 }
    requires lie { All (LiesIn line.now) tokens.now }
    requires few { length tokens.now ≤ 4096 }
    requires inside { at ≤ length tokens.now }
    ensures found { IfOk result (λ r. IsCond (lexemes line.now tokens.now) levels at r.0 r.1) }

    // Every condition from there on ends there or before, and one tree ends there.
    ensures longest { IfOk result (λ r. (c : Cond) (next : ℕ) → IsCond (lexemes line.now tokens.now) levels at c next → next ≤ r.1) }
    ensures only { IfOk result (λ r. (c : Cond) → IsCond (lexemes line.now tokens.now) levels at c r.1 → c ≡ r.0) }
    ensures none { IsErrOf result (ExprFault.NotExpr at) → (c : Cond) (next : ℕ) → IsCond (lexemes line.now tokens.now) levels at c next → ⊥ }
    ensures place { (n : ℕ) → IsErrOf result (ExprFault.NotExpr n) → n ≡ at }
{
    let token_line = TokenLine::new(line, tokens);
    match longest_cond(alloc, &token_line, at, LEVELS)? {
        Some(found) => Ok(found),
        None => Err(ExprFault::NotExpr { at }),
    }
}
