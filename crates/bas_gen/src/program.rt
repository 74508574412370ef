//! The body of a program.

ghost use Rattle.std.specs.Prelude.{◌≡◌, ◌≤◌, true, length, IfOk, IfErr, MatchResult};
ghost use Rattle.bas_ast.specs.UnitTree.{program_tree};
ghost use Rattle.bas_mean.specs.Built.{is_end};
ghost use Rattle.bas_carry.specs.Slots.{slots_of};
ghost use Rattle.bas_carry.specs.Codes.{program_code};
ghost use Rattle.bas_carry.specs.Tables.{program_rows, Sound, IsMade};
ghost use Rattle.bas_genexpr.specs.Counts.{code_limit};
ghost use Rattle.bas_genexpr.specs.Numbering.{variables, slot_limit};
ghost use Rattle.bas_genexpr.specs.Refusals.{IsRefusal};
ghost use Rattle.bas_gen.specs.Addresses.{address_at};
ghost use Rattle.bas_gen.specs.Layouts.{block_list};
ghost use Rattle.bas_gen.specs.Generated.{program_size, IsWithin, IsRefused, LaidOut};

use crate::emit::{emit_block, enter_closing, put_closing};
use crate::layout::{Layout, lay_block, lay_closing, size_of_closing};
use crate::names::number_block;
use crate::output::Output;
use crate::targets::{Targets, targets_of};
use bas_ast::Program;
use bas_base::Seq;
use bas_code::{BodyKind, Proc};
use bas_genexpr::{CODE_LIMIT, Code, GenFault, Sizes, Slots, capped_sum};
use std::alloc::{AllocError, Global};

// Sizes and targets, where the program is not too large.
fn lay_out(alloc: Global, program: &Program) -> Result<Layout, GenFault>
    ensures { MatchResult result (λ layout. LaidOut layout (program_tree program.now)) (λ fault. IsRefusal fault (program_size (program_tree program.now)) code_limit) }
{
    let mut layout = Layout {
        sizes: Vec::new(alloc),
        labels: Vec::new(alloc),
    };
    let block = lay_block(alloc, &mut layout, 0, &program.body)?;
    lay_closing(&mut layout, block, &program.end)?;
    let size = capped_sum(block, size_of_closing(alloc, &program.end.item)?);
    if size > CODE_LIMIT {
        return Err(GenFault::TooLarge {
            size: CODE_LIMIT + 1,
            limit: CODE_LIMIT,
        });
    }
    Ok(layout)
}

// The slots, where they are not too many.
fn number(alloc: Global, program: &Program) -> Result<Slots, GenFault>
    ensures { MatchResult result (λ slots. variables slots ≡ slots_of (program_tree program.now)) (λ fault. IsRefusal fault (length (slots_of (program_tree program.now))) slot_limit) }
{
    let mut slots = Slots::new(alloc);
    number_block(&mut slots, &program.body)?;
    Ok(slots)
}

// Code and lines, by sizes that the layout listed.
fn write(
    alloc: Global,
    program: &Program,
    slots: &Slots,
    targets: &Targets,
    sizes: Vec<u32>,
) -> Result<Output, AllocError>
    ensures { let p = program_tree program.now in IfOk result (λ output. sizes.items ≡ block_list p.body → program_size p ≤ code_limit → is_end p.close.item ≡ true → (output.code ≡ program_code (variables slots.now) (address_at targets.now) p) × (output.lines.items ≡ program_rows p)) }
{
    let mut output = Output {
        code: Code::new(alloc),
        lines: Vec::new(alloc),
        sizes: Sizes::of(sizes),
    };
    emit_block(alloc, &mut output, slots, targets, &program.body, None)?;
    let from = output.code.len();
    put_closing(alloc, &mut output.code, slots, targets, 0, &program.end)?;
    enter_closing(alloc, &mut output, &program.end, from, 0)?;
    Ok(output)
}

/// The body of a program: its code, its line table, and how many slots it has. It is refused where
/// its code has more than 65,535 instructions, and else where it has more than 4,096 variables.
pub fn generate(alloc: Global, program: &Program) -> Result<Proc, GenFault>
    ensures made { IfOk result (λ proc. Sound (program_tree program.now) → IsMade proc (program_tree program.now)) }
    ensures within { IfOk result (λ proc. IsWithin (program_tree program.now)) }
    ensures refused { IfErr result (λ fault. IsRefused fault (program_tree program.now)) }
{
    let layout = lay_out(alloc, program)?;
    let slots = number(alloc, program)?;
    let count = slots.count();
    let Layout { sizes, labels } = layout;
    let targets = targets_of(alloc, labels)?;
    let output = write(alloc, program, &slots, &targets, sizes)?;
    Ok(Proc {
        kind: BodyKind::Main,
        unit: program.name,
        slots: count,
        code: output.code.into_seq(),
        lines: Seq::of(output.lines),
        guards: Seq::of(Vec::new(alloc)),
    })
}
