//! Where the jumps on a line go.

ghost use Rattle.std.specs.Prelude.{◌≡◌, ◌++◌};
ghost use Rattle.std.specs.Option.{option_map, option_to_list};
ghost use Rattle.bas_ast.specs.BlockTree.{item_tree};
ghost use Rattle.bas_ast.specs.RecordTree.{miss_tree};
ghost use Rattle.bas_ast.specs.StatementTree.{branch_tree, plain_tree, simple_tree};
ghost use Rattle.bas_scope.specs.Lines.{gathered};
ghost use Rattle.bas_rules.specs.Jumping as rule;
ghost use Rattle.bas_rules.specs.Sites.{Site, at_top, counted_lines};
ghost use Rattle.bas_reach.specs.Lent.{lent};
ghost use Rattle.bas_reach.specs.Placing.{IsAt, misses};
ghost use Rattle.bas_reach.specs.Standing.{around_of, Tells};

use crate::around::Around;
use crate::statements::{miss_of, plains_on};
use bas_ast::{Branch, LineItem, Miss, MissThen, Plain, Simple};
use bas_base::Line;

fn misses_lines(around: &Around, lines: &[Line]) -> bool
    ensures { result ≡ misses (around_of around.now).reach lines.now }
{
    for line in lines {
        if !around.reaches(*line) {
            return true;
        }
    }
    false
}

#[tactic(auto, unfolding(bas_ast::specs::StatementTree::branch_tree), using(crate::proofs::Jumps::one_missed))]
fn misses_branch(around: &Around, branch: &Branch) -> bool
    ensures { result ≡ misses (around_of around.now).reach (rule.line_of_branch (branch_tree branch.now)) }
{
    match branch {
        Branch::Number(line) => !around.reaches(*line),
        Branch::Plain(_) => false,
    }
}

#[tactic(auto, using(crate::proofs::Jumps::gathered_one))]
fn misses_else(around: &Around, else_part: &Option<Branch>) -> bool
    ensures { result ≡ misses (around_of around.now).reach (gathered rule.line_of_branch (option_to_list (option_map branch_tree else_part.now))) }
{
    match else_part {
        None => false,
        Some(branch) => misses_branch(around, branch),
    }
}

#[tactic(auto, unfolding(bas_ast::specs::StatementTree::simple_tree), using(crate::proofs::Jumps::misses_both))]
fn misses_of_simple(around: &Around, simple: &Simple) -> bool
    ensures { result ≡ misses (around_of around.now).reach (rule.lines_of_simple (simple_tree simple.now)) }
{
    match simple {
        Simple::If(_, then_part, else_part) => {
            misses_branch(around, then_part) | misses_else(around, else_part)
        }
        Simple::OnGoto(_, lines, _) => misses_lines(around, lines.items()),
        Simple::Plain(_) | Simple::OnGosub(_, _, _) => false,
    }
}

#[tactic(auto, unfolding(bas_ast::specs::BlockTree::item_tree))]
fn misses_of_item(around: &Around, item: &LineItem) -> bool
    ensures { result ≡ misses (around_of around.now).reach (rule.lines_of_item (item_tree item.now)) }
{
    match item {
        LineItem::Simple(simple) => misses_of_simple(around, simple.get()),
        _ => false,
    }
}

#[tactic(auto, using(crate::proofs::Jumps::one_missed))]
fn misses_then(around: &Around, miss: &Option<Miss>) -> bool
    ensures { result ≡ misses (around_of around.now).reach (gathered (λ m. rule.line_of_then m.goes) (option_to_list (option_map miss_tree miss.now))) }
{
    match miss {
        Some(miss) => match miss.goes {
            MissThen::Number(line) => !around.reaches(line),
            MissThen::ExitDo | MissThen::ExitFor => false,
        },
        None => false,
    }
}

#[tactic(auto, unfolding(bas_ast::specs::StatementTree::plain_tree), using(crate::proofs::Jumps::one_missed))]
fn misses_of_plain(around: &Around, plain: &Plain) -> bool
    ensures { result ≡ misses (around_of around.now).reach (rule.goto_of (plain_tree plain.now)) }
{
    match plain {
        Plain::Goto(line) => !around.reaches(*line),
        _ => misses_then(around, &miss_of(plain)),
    }
}

#[tactic(auto, using(crate::proofs::Jumps::gathered_one))]
fn misses_of_lent(around: &Around, plain: Option<&Plain>) -> bool
    ensures { result ≡ misses (around_of around.now).reach (gathered rule.goto_of (lent plain.entry)) }
{
    match plain {
        Some(plain) => misses_of_plain(around, plain),
        None => false,
    }
}

/// Whether a jump on a line goes into a block: to no counted line of the same block or of one around it.
pub fn jumps_into_block(around: &Around, item: &LineItem) -> bool
    ensures { (x : Site) → IsAt around.now (item_tree item.now) x → result ≡ rule.jumps_into_block x }
{
    let (first, second) = plains_on(item);
    misses_of_item(around, item) | misses_of_lent(around, first) | misses_of_lent(around, second)
}

#[tactic(auto, unfolding(bas_ast::specs::BlockTree::item_tree, bas_ast::specs::StatementTree::simple_tree))]
fn misses_on_gosub(top: &Around, item: &LineItem) -> bool
    ensures { result ≡ misses (around_of top.now).reach (rule.on_gosub (item_tree item.now)) }
{
    match item {
        LineItem::Simple(simple) => match simple.get() {
            Simple::OnGosub(_, lines, _) => misses_lines(top, lines.items()),
            _ => false,
        },
        _ => false,
    }
}

#[tactic(auto, unfolding(bas_ast::specs::StatementTree::plain_tree), using(crate::proofs::Jumps::one_missed))]
fn misses_gosub_of_plain(top: &Around, plain: &Plain) -> bool
    ensures { result ≡ misses (around_of top.now).reach (rule.gosub_of (plain_tree plain.now)) }
{
    match plain {
        Plain::Gosub(line) => !top.reaches(*line),
        _ => false,
    }
}

#[tactic(auto, using(crate::proofs::Jumps::gathered_one))]
fn misses_gosub_of_lent(top: &Around, plain: Option<&Plain>) -> bool
    ensures { result ≡ misses (around_of top.now).reach (gathered rule.gosub_of (lent plain.entry)) }
{
    match plain {
        Some(plain) => misses_gosub_of_plain(top, plain),
        None => false,
    }
}

/// Whether `GOSUB` on a line goes into a block: to no counted line of the top of its body, which is `top`.
pub fn gosub_into_block(top: &Around, item: &LineItem) -> bool
    ensures { (x : Site) → x.item ≡ item_tree item.now → Tells top.now (at_top (counted_lines x.body.block ++ rule.end_line x.unit x.body.kind)) → result ≡ rule.gosub_into_block x }
{
    let (first, second) = plains_on(item);
    misses_on_gosub(top, item)
        | misses_gosub_of_lent(top, first)
        | misses_gosub_of_lent(top, second)
}
