//! What follows from the grammar of expressions and conditions.

ghost use Rattle.bas_balance.specs.Balance.{ColonEnds, ConditionsBalance, ExpressionsBalance};

/// Expressions and conditions are balanced, and nothing balanced goes past a `:` that stands outside parentheses.
#[tactic(auto, using(crate::proofs::ExpressionBalance::expressions_balance, crate::proofs::ExpressionBalance::conditions_balance, crate::proofs::BalanceLaws::colon_ends))]
pub fn balance_law()
    ensures expressions { ExpressionsBalance }
    ensures conditions { ConditionsBalance }
    ensures colon { ColonEnds }
{}
