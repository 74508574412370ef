//! The least rule that a line breaks in its place.

ghost use Rattle.std.specs.Prelude.{◌≡◌, [], ◌∷◌, IfOk};
ghost use Rattle.bas_ast.specs.BlockTree.{item_tree, line_tree};
ghost use Rattle.bas_rules.specs.Sites.{Ground, site_at};
ghost use Rattle.bas_rules.specs.Well.{first_failed, rules};
ghost use Rattle.bas_place.specs.Standing.{StandsOn};
ghost use Rattle.bas_judge.specs.Rows.{line_fault as line_fault_of};

use crate::claims::declared_twice;
use crate::declarations::{
    has_bounds_out_of_range, has_late_option, has_program_formal, has_type_out_of_bounds,
    has_wrong_kind,
};
use crate::jumps::{
    chains_in_initial_part, exits_nothing, gosub_into_block, jumps_into_block, resumes_nothing,
};
use crate::law::faults_of_places;
use crate::names::{counts_by_wrong_variable, handler_is_not_one, is_out_of_module};
use crate::statements::{
    awaits_what_never_comes, has_bad_attributes, lists_too_many, restores_no_data,
};
use bas_ast::{LineItem, NumLine};
use bas_kind::has_bad_case;
use bas_operands::{first_broken, least, operands_fault};
use bas_place::Place;
use std::alloc::{AllocError, Global};

// The least rule that a line breaks besides those of its operands.
fn own_fault(
    alloc: Global,
    place: &Place<'_>,
    opener: &LineItem,
    line: &NumLine,
) -> Result<Option<u8>, AllocError>
    ensures { IfOk result (λ rule. (g : Ground) → StandsOn place.now g → rule ≡ line_fault_of (site_at g (item_tree opener.now) (line_tree line.now))) }
{
    let item = &line.item;
    let is_declared_twice = declared_twice(alloc, place, line)?;
    Ok(first_broken(&[
        (1, is_declared_twice),
        (3, has_wrong_kind(item)),
        (4, jumps_into_block(place, line)),
        (5, gosub_into_block(place, line)),
        (6, exits_nothing(place, line)),
        (7, resumes_nothing(place, line)),
        (8, handler_is_not_one(place, line)),
        (9, counts_by_wrong_variable(place, opener, line)),
        (10, has_bad_case(opener, item)),
        (13, has_type_out_of_bounds(item)),
        (14, has_bounds_out_of_range(place, line)),
        (15, has_late_option(place, line)),
        (17, restores_no_data(place, line)),
        (18, is_out_of_module(place, line)),
        (19, has_bad_attributes(item)),
        (20, lists_too_many(item)),
        (21, awaits_what_never_comes(item)),
        (22, chains_in_initial_part(place, line)),
        (24, has_program_formal(item)),
    ]))
}

/// The least rule that a line breaks, by its place. `opener` is what stands on the first line of the
/// construct that the line divides or closes, and nothing for any other line.
pub fn line_fault(
    alloc: Global,
    place: &Place<'_>,
    opener: &LineItem,
    line: &NumLine,
) -> Result<Option<u8>, AllocError>
    ensures { (g : Ground) → StandsOn place.now g → IfOk result (λ rule. rule ≡ first_failed 1 rules (site_at g (item_tree opener.now) (line_tree line.now) ∷ [])) }
{
    faults_of_places();
    let own = own_fault(alloc, place, opener, line)?;
    Ok(least(own, operands_fault(&place.names, &line.item)))
}
