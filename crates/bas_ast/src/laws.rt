//! Laws of the plain trees, for proofs alone: each function states equations and does nothing.

ghost use Rattle.bas_ast.specs.BlockEquations.{BlockEquations};
ghost use Rattle.bas_ast.specs.ConditionEquations.{ConditionEquations};
ghost use Rattle.bas_ast.specs.DeclarationEquations.{DeclarationEquations};
ghost use Rattle.bas_ast.specs.ExpressionEquations.{ExpressionEquations};
ghost use Rattle.bas_ast.specs.LineEquations.{LineEquations};
ghost use Rattle.bas_ast.specs.PartEquations.{PartEquations};
ghost use Rattle.bas_ast.specs.RecordEquations.{RecordEquations};
ghost use Rattle.bas_ast.specs.StatementEquations.{StatementEquations};
ghost use Rattle.bas_ast.specs.UnitEquations.{UnitEquations};

/// The plain tree of each form of an expression, an argument and a target.
#[tactic(auto, using(crate::proofs::ExpressionTrees::expression_equations))]
pub fn expression_trees()
    ensures { ExpressionEquations }
{}

/// The plain tree of each form of a condition.
#[tactic(auto, using(crate::proofs::ConditionTrees::condition_equations))]
pub fn condition_trees()
    ensures { ConditionEquations }
{}

/// The plain tree of each setter and each attribute.
#[tactic(auto, using(crate::proofs::RecordTrees::record_equations))]
pub fn record_trees()
    ensures { RecordEquations }
{}

/// The plain tree of each statement.
#[tactic(auto, using(crate::proofs::StatementTrees::statement_equations))]
pub fn statement_trees()
    ensures { StatementEquations }
{}

/// The plain tree of each line of a construct or unit, and of its parts.
#[tactic(auto, using(crate::proofs::PartTrees::part_equations))]
pub fn part_trees()
    ensures { PartEquations }
{}

/// The plain tree of each declaration.
#[tactic(auto, using(crate::proofs::DeclarationTrees::declaration_equations))]
pub fn declaration_trees()
    ensures { DeclarationEquations }
{}

/// The plain tree of what stands on a line.
#[tactic(auto, using(crate::proofs::LineTrees::line_equations))]
pub fn line_trees()
    ensures { LineEquations }
{}

/// The plain tree of a line alone, a construct and a block.
#[tactic(auto, using(crate::proofs::BlockTrees::block_equations))]
pub fn block_trees()
    ensures { BlockEquations }
{}

/// The plain tree of each unit.
#[tactic(auto, using(crate::proofs::UnitTrees::unit_equations))]
pub fn unit_trees()
    ensures { UnitEquations }
{}
