//! Numerals, expressions, arguments and targets.

ghost use Rattle.std.specs.Prelude.{◌≡◌};

use bas_base::Name;
use bas_dec::Dec;
use bas_text::StrVal;
use sqlite_items::{Boxed, Items};

/// A `+` or `-` in front of an expression or of a constant.
#[derive(Clone, Copy, Debug, PartialEq, Eq)]
pub enum Sign {
    Plus,
    Minus,
}

/// What stands between two terms: `+`, `-` or `&`.
#[derive(Clone, Copy, Debug, PartialEq, Eq)]
pub enum TermSign {
    Add,
    Subtract,
    Join,
}

/// What stands between two factors: `*` or `/`.
#[derive(Clone, Copy, Debug, PartialEq, Eq)]
pub enum FactorSign {
    Multiply,
    Divide,
}

/// `digits . digits E digits`
#[derive(Clone, Copy, Debug)]
pub struct Numeral {
    /// The value, rounded to the places that a number has.
    pub value: Dec,
    /// Whether it was written with digits alone, which names a channel that is a formal.
    pub digits: bool,
}

/// `[ + | - ] term { ( + | - | & ) term }`
#[cycle(expression)]
#[derive(Drop)]
pub struct Expr {
    /// It goes with the first term.
    pub sign: Option<Sign>,
    pub first: Boxed<Term>,
    pub rest: Items<(TermSign, Term)>,
}

/// `factor { ( * | / ) factor }`
#[cycle(expression)]
#[derive(Drop)]
pub struct Term {
    pub first: Factor,
    pub rest: Items<(FactorSign, Factor)>,
}

/// `primary { ^ primary }`, grouped from the left
#[cycle(expression)]
#[derive(Drop)]
pub struct Factor {
    pub base: Primary,
    pub exponents: Items<Primary>,
}

/// An operand.
#[cycle(expression)]
#[derive(Drop)]
pub enum Primary {
    Numeral(Numeral),
    /// The bytes between the quotes, with one quote for each doubled one.
    Quoted(StrVal),
    /// `( expr )`
    Group(Boxed<Expr>),
    /// `name [ ( args ) ]`: a variable, an element or a call.
    Name(Name, Args),
    /// `target ( first : last )`
    Substring(Target, Boxed<Expr>, Boxed<Expr>),
}

/// `actual { , actual }`; none where the parentheses are not written.
#[cycle(expression)]
#[derive(Drop)]
pub struct Args {
    pub actuals: Items<Actual>,
}

/// An argument.
#[cycle(expression)]
#[derive(Drop)]
pub enum Actual {
    Expr(Expr),
    /// `# expr`
    Chan(Expr),
}

/// `name [ ( expr { , expr } ) ]`: a variable, or an element where there are subscripts.
#[cycle(expression)]
#[derive(Drop)]
pub struct Target {
    pub name: Name,
    pub subscripts: Items<Expr>,
}

impl Factor {
    ghost use Rattle.std.specs.Option.{option_map, option_copied};
    ghost use Rattle.bas_ast.specs.Accessors.{lone_factor};
    ghost use Rattle.bas_ast.specs.ExpressionTree.{factor_tree, primary_tree};

    // The operand that the factor is, or `None` where it has an exponent.
    #[tactic(auto, using(crate::proofs::ExpressionTrees::factor_out, crate::proofs::Lone::powers_hide))]
    fn lone_primary(&self) -> Option<&Primary>
        ensures { option_map primary_tree (option_copied result) ≡ lone_factor (factor_tree self.now) }
    {
        if self.exponents.is_empty() {
            Some(&self.base)
        } else {
            None
        }
    }
}

impl Term {
    ghost use Rattle.std.specs.Option.{option_map, option_copied};
    ghost use Rattle.bas_ast.specs.Accessors.{lone_term};
    ghost use Rattle.bas_ast.specs.ExpressionTree.{term_tree, primary_tree};

    // The operand that the term is, or `None` where it has an operator.
    #[tactic(auto, using(crate::proofs::ExpressionTrees::term_out, crate::proofs::Lone::factors_hide))]
    fn lone_primary(&self) -> Option<&Primary>
        ensures { option_map primary_tree (option_copied result) ≡ lone_term (term_tree self.now) }
    {
        if self.rest.is_empty() {
            self.first.lone_primary()
        } else {
            None
        }
    }
}

impl Expr {
    ghost use Rattle.std.specs.Option.{option_map, option_copied};
    ghost use Rattle.bas_ast.specs.Accessors.{lone_primary as lone_primary_of, primary_digits};
    ghost use Rattle.bas_ast.specs.ExpressionTree.{expr_tree, primary_tree};

    /// The operand that the expression is, or `None` where it has a sign or an operator.
    #[tactic(auto, using(crate::proofs::ExpressionTrees::expr_out, crate::proofs::Lone::terms_hide))]
    pub fn lone_primary(&self) -> Option<&Primary>
        ensures { option_map primary_tree (option_copied result) ≡ lone_primary_of (expr_tree self.now) }
    {
        if !self.rest.is_empty() {
            return None;
        }
        match self.sign {
            Some(_) => None,
            None => self.first.get().lone_primary(),
        }
    }

    /// The value of the expression, where it is a numeral of digits alone.
    #[tactic(auto, using(crate::proofs::ExpressionTrees::primary_numeral))]
    pub fn digits(&self) -> Option<Dec>
        ensures { result ≡ primary_digits (lone_primary_of (expr_tree self.now)) }
    {
        self.lone_primary()?.digits()
    }
}

impl Primary {
    ghost use Rattle.bas_ast.specs.Accessors.{primary_digits};
    ghost use Rattle.bas_ast.specs.ExpressionTree.{primary_tree};

    // The value of the operand, where it is a numeral of digits alone.
    #[tactic(auto, using(crate::proofs::ExpressionTrees::expression_trees))]
    fn digits(&self) -> Option<Dec>
        ensures { result ≡ primary_digits (Some (primary_tree self.now)) }
    {
        match self {
            Primary::Numeral(numeral) => numeral.digits.then_some(numeral.value),
            Primary::Quoted(_) => None,
            Primary::Group(_) => None,
            Primary::Name(_, _) => None,
            Primary::Substring(_, _, _) => None,
        }
    }
}
