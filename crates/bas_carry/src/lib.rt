//! Templates: what stands in an image for a program, and the law that joins the meaning and the
//! machine. An image that carries a program does for n lines exactly what the program means for n
//! lines. The templates are a relation between trees and addresses, for any numbering of slots, and
//! as functions they make code, line table and addresses of a program that the relation takes.
#![tactic(auto)]

ghost use Rattle.std.specs.Prelude.{◌≡◌, ℕ, ◌+◌, List, [], ◌∷◌, ◌++◌, length, Option};
ghost use Rattle.bas_ast.specs.Tree.{Expr, Cond, Loopc, Stmt, Block, Program};
ghost use Rattle.bas_mean.specs.World.{Variable};
ghost use Rattle.bas_mean.specs.Outcome.{Target};
ghost use Rattle.bas_mean.specs.Place.{Around};
ghost use Rattle.bas_carry.specs.Slots.{index_of, with_variable, with_variables};
ghost use Rattle.bas_carry.specs.Codes.{
  expr_size,
  cond_size,
  loopc_size,
  stmt_size,
  block_size,
  closing_size,
  expr_code,
  unless_code,
  if_code,
  loopc_code,
  stmt_code,
  block_code,
  program_code,
};
ghost use Rattle.bas_mean.specs.Programs.{
  counting_loop,
  jump_out,
  jump_to_loop,
  early_exit,
  zero_divisor,
  cut_short,
};
ghost use Rattle.bas_code.specs.Images.{
  image_of,
  counting_body,
  jump_out_body,
  jump_to_loop_body,
  early_exit_body,
  zero_divisor_body,
  cut_short_body,
};
ghost use Rattle.bas_carry.specs.Carries.{Carries, CarriedAgrees};
ghost use Rattle.bas_carry.specs.Tables.{MadeIsCarried};

/// For every image that carries a list of units, every number of lines and every input: the machine
/// runs to the end that the units mean (ended, stopped by which exception, or going on), with the
/// same output, report, input and lines left, and to no other end.
#[tactic(auto, using(crate::proofs::Theorem::carried_agrees))]
pub fn image_does_what_is_meant()
    ensures { CarriedAgrees }
{}

/// An image with the body that the functions make of a sound program carries that program.
#[tactic(auto, using(crate::proofs::Made::made_is_carried))]
pub fn made_image_is_carried()
    ensures { MadeIsCarried }
{}

/// The images of the worked examples carry their programs.
#[tactic(auto, using(crate::proofs::Samples::samples))]
pub fn examples_are_carried()
    ensures counting { Carries (image_of counting_body) counting_loop }
    ensures out { Carries (image_of jump_out_body) jump_out }
    ensures to_loop { Carries (image_of jump_to_loop_body) jump_to_loop }
    ensures early { Carries (image_of early_exit_body) early_exit }
    ensures divided { Carries (image_of zero_divisor_body) zero_divisor }
    ensures cut { Carries (image_of cut_short_body) cut_short }
{}

/// Each code that the functions make is as long as its size says, whatever its numbering and
/// addresses are.
#[tactic(auto, using(crate::proofs::Lengths::lengths))]
pub fn code_has_its_size()
    ensures expressions { (order : List Variable) (e : Expr) → length (expr_code order e) ≡ expr_size e }
    ensures unless { (order : List Variable) (c : Cond) (from a : ℕ) → length (unless_code order c from a) ≡ cond_size c }
    ensures met { (order : List Variable) (c : Cond) (from a : ℕ) → length (if_code order c from a) ≡ cond_size c }
    ensures loops { (order : List Variable) (c : Option Loopc) (from a : ℕ) → length (loopc_code order c from a) ≡ loopc_size c }
    ensures statements { (order : List Variable) (addr : Target → ℕ) (s : Stmt) (around : Around) (from : ℕ) → length (stmt_code order addr around s from) ≡ stmt_size s }
    ensures blocks { (order : List Variable) (addr : Target → ℕ) (b : Block) (around : Around) (from : ℕ) → length (block_code order addr around b from) ≡ block_size b }
    ensures programs { (order : List Variable) (addr : Target → ℕ) (p : Program) → length (program_code order addr p) ≡ block_size p.body + closing_size p.close.item }
{}

/// The variables of a text are numbered part by part, from the left.
#[tactic(auto, using(crate::proofs::Parts::parts))]
pub fn variables_are_numbered_in_order()
    ensures none { (order : List Variable) → with_variables order [] ≡ order }
    ensures one { (x : Variable) (order : List Variable) → with_variables order (x ∷ []) ≡ with_variable (index_of order x) order x }
    ensures parts { (xs ys order : List Variable) → with_variables order (xs ++ ys) ≡ with_variables (with_variables order xs) ys }
{}
