ghost use Rattle.bas_ast.specs.BlockTree.{item_tree};
ghost use Rattle.bas_ast.specs.StatementTree.{plain_tree};
ghost use Rattle.std.specs.Prelude.{◌≡◌};
ghost use Rattle.bas_ast.specs.ConditionTree.{cond_tree};
ghost use Rattle.bas_ast.specs.PartTree.{loopc_tree};
ghost use Rattle.bas_gen.specs.Kinds.{Shows, ShowsPlain, loop_cond, leaves_where};

use bas_ast::{Cond, Expr, LineItem, Loopc, Part, Plain, Plist, Simple, Targets};
use bas_base::Line;

/// What a line is for the generator.
#[derive(Clone, Copy)]
pub enum LineKind<'a> {
    Alone(&'a Plain),
    If(&'a Cond),
    Elseif(&'a Cond),
    Else,
    Do(&'a Option<Loopc>),
    Loop(&'a Option<Loopc>),
    End,
    /// A remark or an empty line.
    Remark,
    /// It makes nothing of the line.
    Other,
}

/// The kind of a line.
#[tactic(auto, unfolding(bas_ast::specs::BlockTree::item_tree, bas_ast::specs::PartTree::part_tree, bas_ast::specs::StatementTree::simple_tree))]
pub fn kind_of(item: &LineItem) -> LineKind<'_>
    ensures { Shows result (item_tree item.now) }
{
    match item {
        LineItem::Simple(simple) => match simple.get() {
            Simple::Plain(plain) => LineKind::Alone(plain),
            _ => LineKind::Other,
        },
        LineItem::Part(part) => match part.get() {
            Part::If(c) => LineKind::If(c),
            Part::Elseif(c) => LineKind::Elseif(c),
            Part::Else => LineKind::Else,
            Part::Do(loopc) => LineKind::Do(loopc),
            Part::Loop(loopc) => LineKind::Loop(loopc),
            Part::End => LineKind::End,
            _ => LineKind::Other,
        },
        LineItem::Rem(_) => LineKind::Remark,
        LineItem::Nothing => LineKind::Remark,
        _ => LineKind::Other,
    }
}

/// What a statement is for the generator.
#[derive(Clone, Copy)]
pub enum PlainKind<'a> {
    Let(&'a Targets, &'a Expr),
    Print(&'a Plist),
    Goto(Line),
    ExitDo,
    /// It makes nothing of the statement.
    Other,
}

/// The kind of a statement.
#[tactic(auto, unfolding(bas_ast::specs::StatementTree::plain_tree))]
pub fn plain_kind_of(plain: &Plain) -> PlainKind<'_>
    ensures { ShowsPlain result (plain_tree plain.now) }
{
    match plain {
        Plain::Let(targets, e) => PlainKind::Let(targets, e),
        Plain::Print(list) => PlainKind::Print(list),
        Plain::Goto(line) => PlainKind::Goto(*line),
        Plain::ExitDo => PlainKind::ExitDo,
        _ => PlainKind::Other,
    }
}

/// The condition of a loop.
#[tactic(auto, unfolding(bas_ast::specs::PartTree::loopc_tree))]
pub fn loop_condition(loopc: &Loopc) -> &Cond
    ensures { cond_tree result.now ≡ loop_cond (loopc_tree loopc.now) }
{
    match loopc {
        Loopc::While(c) => c,
        Loopc::Until(c) => c,
    }
}

/// The truth of its condition with which the loop is left.
#[tactic(auto, unfolding(bas_ast::specs::PartTree::loopc_tree))]
pub fn leaves(loopc: &Loopc) -> bool
    ensures { result ≡ leaves_where (loopc_tree loopc.now) }
{
    matches!(loopc, Loopc::Until(_))
}
