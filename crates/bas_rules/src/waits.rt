//! What a statement may wait for.

ghost use Rattle.std.specs.Prelude.{◌≡◌, false};
ghost use Rattle.std.specs.Option.{option_map, option_map_or};
ghost use Rattle.bas_ast.specs.RecordTree.{miss_tree};
ghost use Rattle.bas_ast.specs.StatementTree.{plain_tree};
ghost use Rattle.bas_rules.specs.Recording.{awaits_wrongly as awaits_wrongly_of, is_there, differ};

use bas_ast::{Miss, MissWhen, Plain};

// Whether IF MISSING or IF THERE is another one than a statement may have.
fn is_wrong(miss: &Option<Miss>, writes: bool) -> bool
    ensures { result ≡ option_map_or (λ m. differ (is_there m.when) writes) (option_map miss_tree miss.now) false }
{
    match miss {
        None => false,
        Some(miss) => match miss.when {
            MissWhen::There => !writes,
            MissWhen::Missing => writes,
        },
    }
}

/// Whether a statement has `IF THERE` and is no `WRITE`, or has `IF MISSING` and is one.
#[tactic(auto, unfolding(bas_ast::specs::StatementTree::plain_tree))]
pub fn awaits_wrongly(plain: &Plain) -> bool
    ensures { result ≡ awaits_wrongly_of (plain_tree plain.now) }
{
    match plain {
        Plain::Write(_, _, miss, _) => is_wrong(miss, true),
        Plain::InputChan(_, miss, _)
        | Plain::LineInputChan(_, miss, _)
        | Plain::ReadChan(_, _, miss, _)
        | Plain::Rewrite(_, _, miss, _)
        | Plain::Delete(_, _, miss) => is_wrong(miss, false),
        _ => false,
    }
}
