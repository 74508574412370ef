//! What the exits on a line leave, and the statements that stand in some places alone.

ghost use Rattle.std.specs.Prelude.{◌≡◌, [], ◌∷◌};
ghost use Rattle.std.specs.List.{list_any};
ghost use Rattle.std.specs.Option.{option_map, option_to_list};
ghost use Rattle.bas_ast.specs.BlockTree.{item_tree};
ghost use Rattle.bas_ast.specs.RecordTree.{miss_tree};
ghost use Rattle.bas_ast.specs.StatementTree.{plain_tree};
ghost use Rattle.bas_scope.specs.Lines.{gathered};
ghost use Rattle.bas_scope.specs.Bodies.{head_item};
ghost use Rattle.bas_rules.specs.Jumping as rule;
ghost use Rattle.bas_rules.specs.Sites.{Site};
ghost use Rattle.bas_reach.specs.Lent.{lent};
ghost use Rattle.bas_reach.specs.Placing.{IsAt};
ghost use Rattle.bas_reach.specs.Standing.{around_of, Tells};

use crate::around::Around;
use crate::statements::{miss_of, plains_on};
use bas_ast::{LineItem, Miss, MissThen, Part, Plain};

#[tactic(auto, unfolding(bas_ast::specs::BlockTree::item_tree, bas_ast::specs::PartTree::part_tree))]
fn is_sub(head: &LineItem) -> bool
    ensures { result ≡ rule.is_sub (item_tree head.now) }
{
    match head {
        LineItem::Part(part) => matches!(part.get(), Part::Sub(_, _) | Part::ExternalSub(_, _)),
        _ => false,
    }
}

#[tactic(auto, unfolding(bas_ast::specs::BlockTree::item_tree, bas_ast::specs::PartTree::part_tree))]
fn is_function(head: &LineItem) -> bool
    ensures { result ≡ rule.is_function (item_tree head.now) }
{
    match head {
        LineItem::Part(part) => {
            matches!(
                part.get(),
                Part::Function(_, _) | Part::ExternalFunction(_, _)
            )
        }
        _ => false,
    }
}

fn miss_leaves_nothing(around: &Around, miss: Option<Miss>) -> bool
    ensures { (x : Site) → Tells around.now x.around → result ≡ list_any (rule.miss_leaves_nothing x) (gathered (λ m. m.goes ∷ []) (option_to_list (option_map miss_tree miss))) }
{
    match miss {
        Some(miss) => match miss.goes {
            MissThen::ExitDo => !around.is_in_do(),
            MissThen::ExitFor => !around.is_in_for(),
            MissThen::Number(_) => false,
        },
        None => false,
    }
}

#[tactic(auto, unfolding(bas_ast::specs::StatementTree::plain_tree))]
fn leaves_nothing(around: &Around, head: &LineItem, plain: &Plain) -> bool
    ensures { (x : Site) → Tells around.now x.around → head_item x.body.head ≡ item_tree head.now → result ≡ rule.leaves_nothing x (plain_tree plain.now) }
{
    match plain {
        Plain::ExitDo => !around.is_in_do(),
        Plain::ExitFor => !around.is_in_for(),
        Plain::ExitSub => !is_sub(head),
        Plain::ExitFunction => !is_function(head),
        _ => miss_leaves_nothing(around, miss_of(plain)),
    }
}

fn lent_leaves_nothing(around: &Around, head: &LineItem, plain: Option<&Plain>) -> bool
    ensures { (x : Site) → Tells around.now x.around → head_item x.body.head ≡ item_tree head.now → result ≡ list_any (rule.leaves_nothing x) (lent plain.entry) }
{
    match plain {
        Some(plain) => leaves_nothing(around, head, plain),
        None => false,
    }
}

/// Whether an `EXIT` on a line stands inside of no such construct of its body, whose first line says `head`.
pub fn exits_nothing(around: &Around, head: &LineItem, item: &LineItem) -> bool
    ensures { (x : Site) → IsAt around.now (item_tree item.now) x → head_item x.body.head ≡ item_tree head.now → result ≡ rule.exits_nothing x }
{
    let (first, second) = plains_on(item);
    lent_leaves_nothing(around, head, first) | lent_leaves_nothing(around, head, second)
}

#[tactic(auto, unfolding(bas_ast::specs::StatementTree::plain_tree))]
fn is_of_handler(plain: &Plain) -> bool
    ensures { result ≡ rule.is_of_handler (plain_tree plain.now) }
{
    matches!(plain, Plain::Retry | Plain::Continue | Plain::ExitHandler)
}

fn lent_is_of_handler(plain: Option<&Plain>) -> bool
    ensures { result ≡ list_any rule.is_of_handler (lent plain.entry) }
{
    match plain {
        Some(plain) => is_of_handler(plain),
        None => false,
    }
}

/// Whether `RETRY`, `CONTINUE` or `EXIT HANDLER` on a line stands in no handler.
pub fn resumes_nothing(around: &Around, item: &LineItem) -> bool
    ensures { (x : Site) → IsAt around.now (item_tree item.now) x → result ≡ rule.resumes_nothing x }
{
    let (first, second) = plains_on(item);
    !around.is_in_handler() & (lent_is_of_handler(first) | lent_is_of_handler(second))
}

#[tactic(auto, unfolding(bas_ast::specs::StatementTree::plain_tree))]
fn is_chain(plain: &Plain) -> bool
    ensures { result ≡ rule.is_chain (plain_tree plain.now) }
{
    matches!(plain, Plain::Chain(_, _))
}

fn lent_is_chain(plain: Option<&Plain>) -> bool
    ensures { result ≡ list_any rule.is_chain (lent plain.entry) }
{
    match plain {
        Some(plain) => is_chain(plain),
        None => false,
    }
}

/// Whether `CHAIN` stands on a line of an initial part.
pub fn chains_in_initial_part(is_initial: bool, item: &LineItem) -> bool
    ensures { (x : Site) → rule.is_initial x.body.kind ≡ is_initial → x.item ≡ item_tree item.now → result ≡ rule.chains_in_initial_part x }
{
    let (first, second) = plains_on(item);
    is_initial & (lent_is_chain(first) | lent_is_chain(second))
}
