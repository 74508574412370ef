//! The code and the line table of blocks, in the order of the text.

ghost use Rattle.std.specs.Prelude.{◌≡◌, suc, ◌+◌, ◌≤◌, List, [], ◌∷◌, ◌++◌, length, OnOk};
ghost use Rattle.bas_ast.specs.Tree as t;
ghost use Rattle.std.specs.Option.{option_map};
ghost use Rattle.bas_ast.specs.ConditionTree.{cond_tree};
ghost use Rattle.bas_ast.specs.ExpressionTree.{target_tree};
ghost use Rattle.bas_ast.specs.StatementTree.{plain_tree, pitem_tree};
ghost use Rattle.bas_ast.specs.PartTree.{loopc_tree};
ghost use Rattle.bas_ast.specs.BlockTree.{
  item_tree,
  line_tree,
  stmt_tree,
  block_tree,
  section_tree,
  sections_tree,
  stmts_tree,
};
ghost use Rattle.bas_mean.specs.World.{Variable};
ghost use Rattle.bas_code.specs.declared.instr.Instr.TheVariants as instr;
ghost use Rattle.bas_carry.specs.Codes.{
  cond_size,
  loopc_size,
  plain_size,
  part_end_size,
  closing_size,
  sections_size,
  stmt_size,
  block_size,
  print_code,
  exit_code,
  plain_code,
  closing_code,
  loopc_code,
  part_end_code,
  do_section_code,
  sections_code,
  stmt_code,
  block_code,
  unless_code,
};
ghost use Rattle.bas_carry.specs.Tables.{
  entry,
  closing_rows,
  do_section_rows,
  sections_rows,
  stmt_rows,
  block_rows,
};
ghost use Rattle.bas_genexpr.specs.Counts.{code_limit, counted};
ghost use Rattle.bas_genexpr.specs.Numbering.{variables};
ghost use Rattle.bas_genexpr.specs.Jumps.{jump_code};
ghost use Rattle.bas_gen.specs.Addresses.{address_at};
ghost use Rattle.bas_gen.specs.Emitting.{
  Emits,
  EntersClosing,
  around_of,
  own_code,
  own_rows,
  part_end_of,
  test_code,
  test_rows,
};
ghost use Rattle.bas_gen.specs.Layouts.{block_list, stmt_list, sections_list, own_size, own_list};

use crate::layout::{Target, continues, size_of_closing, size_of_part_end};
use crate::line::{LineKind, PlainKind, kind_of, leaves, loop_condition, plain_kind_of};
use crate::output::{Output, enter, next_size};
use crate::targets::Targets;
use bas_ast::{Block, Cond, LineItem, Loopc, NumLine, Pitem, Plain, Section, Stmt};
use bas_base::Line;
use bas_code::{Instr, JumpInstr, PrintInstr, PushInstr, RunInstr, StoreInstr, TERMINAL};
use bas_genexpr::{
    Aim, CODE_LIMIT, Code, Slots, capped_sum, condition_size, place, put_condition, put_expression,
};
use std::alloc::{AllocError, Global};

#[tactic(auto, unfolding(bas_ast::specs::StatementTree::pitem_tree))]
fn put_pitem(code: &mut Code, slots: &Slots, item: &Pitem) -> Result<(), AllocError>
    ensures { OnOk result (code.new ≡ code.old ++ print_code (variables slots.now) (Some (pitem_tree item.now))) }
{
    match item {
        Pitem::Expr(e) => {
            put_expression(code, slots, e)?;
            code.push(Instr::Print(PrintInstr::PrintNum(TERMINAL)))?;
            code.push(Instr::Print(PrintInstr::PrintEnd(TERMINAL)))
        }
        Pitem::Tab(_) => code.push(Instr::Print(PrintInstr::PrintEnd(TERMINAL))),
    }
}

fn put_print(code: &mut Code, slots: &Slots, item: &Option<Pitem>) -> Result<(), AllocError>
    ensures { OnOk result (code.new ≡ code.old ++ print_code (variables slots.now) (option_map pitem_tree item.now)) }
{
    match item {
        Some(item) => put_pitem(code, slots, item),
        None => code.push(Instr::Print(PrintInstr::PrintEnd(TERMINAL))),
    }
}

// The jump of `EXIT DO`, which is the same whatever the variables are.
fn put_exit(code: &mut Code, targets: &Targets, do_line: Option<u32>) -> Result<(), AllocError>
    ensures { (order : List Variable) → OnOk result (code.new ≡ code.old ++ exit_code order (address_at targets.now) do_line) }
{
    match do_line {
        Some(number) => {
            let to = targets.address(Target::End(number));
            code.push(Instr::Jump(JumpInstr::Jump(to)))
        }
        None => code.push(Instr::Jump(JumpInstr::Jump(0))),
    }
}

fn put_plain(
    code: &mut Code,
    slots: &Slots,
    targets: &Targets,
    plain: &Plain,
    do_line: Option<u32>,
) -> Result<(), AllocError>
    ensures { OnOk result (code.new ≡ code.old ++ plain_code (variables slots.now) (address_at targets.now) (around_of do_line) (plain_tree plain.now)) }
{
    match plain_kind_of(plain) {
        PlainKind::Let(list, e) => match list.targets.items().first() {
            Some(target) => {
                code.push(Instr::Push(PushInstr::Ref(place(slots, &target.name))))?;
                put_expression(code, slots, e)?;
                code.push(Instr::Store(StoreInstr::Store(1)))
            }
            None => Ok(()),
        },
        PlainKind::Print(list) => put_print(code, slots, &list.first),
        PlainKind::Goto(line) => {
            let to = targets.address(Target::Line(line.number()));
            code.push(Instr::Jump(JumpInstr::Jump(to)))
        }
        PlainKind::ExitDo => put_exit(code, targets, do_line),
        PlainKind::Other => Ok(()),
    }
}

// A condition, where there is room for it, as there is wherever the layout fits.
fn put_aimed(
    alloc: Global,
    code: &mut Code,
    slots: &Slots,
    c: &Cond,
    aim: Aim,
) -> Result<(), AllocError>
    ensures { OnOk result (length code.old + cond_size (cond_tree c.now) ≤ code_limit → code.new ≡ code.old ++ jump_code (variables slots.now) aim.wanted (cond_tree c.now) (length code.old) aim.to) }
{
    let size = condition_size(alloc, c)?;
    if code.len() <= CODE_LIMIT as usize && code.len() as u32 + size <= CODE_LIMIT {
        put_condition(alloc, code, slots, c, aim)
    } else {
        Ok(())
    }
}

fn put_loopc(
    alloc: Global,
    code: &mut Code,
    slots: &Slots,
    loopc: &Option<Loopc>,
    to: u16,
) -> Result<(), AllocError>
    ensures { OnOk result (length code.old + loopc_size (option_map loopc_tree loopc.now) ≤ code_limit → code.new ≡ code.old ++ loopc_code (variables slots.now) (option_map loopc_tree loopc.now) (length code.old) to) }
{
    match loopc {
        Some(loopc) => {
            let aim = Aim {
                wanted: leaves(loopc),
                to,
            };
            put_aimed(alloc, code, slots, loop_condition(loopc), aim)
        }
        None => Ok(()),
    }
}

/// Appends the code of a line that closes a block.
pub fn put_closing(
    alloc: Global,
    code: &mut Code,
    slots: &Slots,
    targets: &Targets,
    opener: u32,
    end: &NumLine,
) -> Result<(), AllocError>
    ensures { OnOk result (length code.old + closing_size (item_tree end.now.item) ≤ code_limit → code.new ≡ code.old ++ closing_code (variables slots.now) (address_at targets.now) opener end.now.line (item_tree end.now.item) (length code.old)) }
{
    match kind_of(&end.item) {
        LineKind::Loop(loopc) => {
            code.push(Instr::Mark(end.line))?;
            put_loopc(
                alloc,
                code,
                slots,
                loopc,
                targets.address(Target::End(opener)),
            )
        }
        LineKind::End => {
            code.push(Instr::Mark(end.line))?;
            code.push(Instr::Run(RunInstr::End))
        }
        LineKind::Alone(_) => Ok(()),
        LineKind::If(_) => Ok(()),
        LineKind::Elseif(_) => Ok(()),
        LineKind::Else => Ok(()),
        LineKind::Do(_) => Ok(()),
        LineKind::Remark => Ok(()),
        LineKind::Other => Ok(()),
    }
}

/// What a section knows of its construct.
#[derive(Clone, Copy)]
struct Spot {
    last: bool,
    going: bool,
    do_line: Option<u32>,
    finish: usize,
}

// The address behind some code.
fn behind(from: usize, size: u32) -> usize
    ensures { from + size ≤ code_limit → result ≡ from + size }
{
    from.saturating_add(size as usize)
}

// An address, which is none of the body past the limit.
fn narrowed(at: usize) -> u16
    ensures { at ≤ code_limit → result ≡ at }
{
    at.min(CODE_LIMIT as usize) as u16
}

fn emit_alone(
    output: &mut Output,
    slots: &Slots,
    targets: &Targets,
    line: Line,
    plain: &Plain,
    do_line: Option<u32>,
) -> Result<(), AllocError>
    ensures { OnOk result (Emits output.old output.new [] (1 + plain_size (plain_tree plain.now)) (λ from. instr.Mark line ∷ plain_code (variables slots.now) (address_at targets.now) (around_of do_line) (plain_tree plain.now)) (λ from. entry line from (from + (1 + plain_size (plain_tree plain.now))) (from + (1 + plain_size (plain_tree plain.now))) ∷ [])) }
{
    let start = output.code.len();
    output.code.push(Instr::Mark(line))?;
    put_plain(&mut output.code, slots, targets, plain, do_line)?;
    let end = output.code.len();
    enter(output, line, start, end, end)
}

// The mark of a remark or an empty line.
fn emit_remark(output: &mut Output, line: Line) -> Result<(), AllocError>
    ensures { OnOk result (Emits output.old output.new [] 1 (λ from. instr.Mark line ∷ []) (λ from. entry line from (suc from) (suc from) ∷ [])) }
{
    let start = output.code.len();
    output.code.push(Instr::Mark(line))?;
    let end = output.code.len();
    enter(output, line, start, end, end)
}

// A line that stands alone.
fn emit_single(
    output: &mut Output,
    slots: &Slots,
    targets: &Targets,
    line: &NumLine,
    do_line: Option<u32>,
) -> Result<(), AllocError>
    ensures { let x = t.Single (line_tree line.now) in OnOk result (Emits output.old output.new [] (stmt_size x) (λ from. stmt_code (variables slots.now) (address_at targets.now) (around_of do_line) x from) (λ from. stmt_rows x from)) }
{
    match kind_of(&line.item) {
        LineKind::Alone(plain) => emit_alone(output, slots, targets, line.line, plain, do_line),
        LineKind::Remark => emit_remark(output, line.line),
        LineKind::If(_) => Ok(()),
        LineKind::Elseif(_) => Ok(()),
        LineKind::Else => Ok(()),
        LineKind::Do(_) => Ok(()),
        LineKind::Loop(_) => Ok(()),
        LineKind::End => Ok(()),
        LineKind::Other => Ok(()),
    }
}

/// The row of a line that closes a block.
pub fn enter_closing(
    alloc: Global,
    output: &mut Output,
    end: &NumLine,
    from: usize,
    finish: usize,
) -> Result<(), AllocError>
    ensures { OnOk result (EntersClosing output.old output.new end.now.line (item_tree end.now.item) from finish) }
{
    match kind_of(&end.item) {
        LineKind::Loop(_) => {
            let size = size_of_closing(alloc, &end.item)?;
            enter(
                output,
                end.line,
                from,
                behind(from, capped_sum(size, 1)),
                finish,
            )
        }
        LineKind::End => enter(output, end.line, from, behind(from, 2), from),
        LineKind::Alone(_) => Ok(()),
        LineKind::If(_) => Ok(()),
        LineKind::Elseif(_) => Ok(()),
        LineKind::Else => Ok(()),
        LineKind::Do(_) => Ok(()),
        LineKind::Remark => Ok(()),
        LineKind::Other => Ok(()),
    }
}

// The jump behind a part of a block IF, which the last one has not.
fn put_part_end(code: &mut Code, last: bool, finish: usize) -> Result<(), AllocError>
    ensures { OnOk result (finish ≤ code_limit → code.new ≡ code.old ++ part_end_of last finish) }
{
    if last {
        Ok(())
    } else {
        code.push(Instr::Jump(JumpInstr::Jump(narrowed(finish))))
    }
}

/// Appends the code and the lines of a block.
#[cycle(emits)]
pub fn emit_block(
    alloc: Global,
    output: &mut Output,
    slots: &Slots,
    targets: &Targets,
    block: &Block,
    do_line: Option<u32>,
) -> Result<(), AllocError>
    ensures { OnOk result (Emits output.old output.new (block_list (block_tree block.now)) (block_size (block_tree block.now)) (λ from. block_code (variables slots.now) (address_at targets.now) (around_of do_line) (block_tree block.now) from) (λ from. block_rows (block_tree block.now) from)) }
{
    emit_stmts(
        alloc,
        output,
        slots,
        targets,
        block.stmts.as_slice(),
        do_line,
    )
}

#[cycle(emits)]
fn emit_stmts(
    alloc: Global,
    output: &mut Output,
    slots: &Slots,
    targets: &Targets,
    stmts: &[Stmt],
    do_line: Option<u32>,
) -> Result<(), AllocError>
    ensures { OnOk result (Emits output.old output.new (block_list (stmts_tree stmts.now)) (block_size (stmts_tree stmts.now)) (λ from. block_code (variables slots.now) (address_at targets.now) (around_of do_line) (stmts_tree stmts.now) from) (λ from. block_rows (stmts_tree stmts.now) from)) }
{
    for next in stmts {
        emit_stmt(alloc, output, slots, targets, next, do_line)?;
    }
    Ok(())
}

#[cycle(emits)]
fn emit_stmt(
    alloc: Global,
    output: &mut Output,
    slots: &Slots,
    targets: &Targets,
    stmt: &Stmt,
    do_line: Option<u32>,
) -> Result<(), AllocError>
    ensures { OnOk result (Emits output.old output.new (stmt_list (stmt_tree stmt.now)) (stmt_size (stmt_tree stmt.now)) (λ from. stmt_code (variables slots.now) (address_at targets.now) (around_of do_line) (stmt_tree stmt.now) from) (λ from. stmt_rows (stmt_tree stmt.now) from)) }
{
    match stmt {
        Stmt::Single(line) => emit_single(output, slots, targets, line, do_line),
        Stmt::Nest { sections, end } => {
            emit_sections(
                alloc,
                output,
                slots,
                targets,
                sections.as_slice(),
                end,
                do_line,
            )
        }
    }
}

// The sections of a construct, with its size before them.
#[cycle(emits)]
fn emit_sections(
    alloc: Global,
    output: &mut Output,
    slots: &Slots,
    targets: &Targets,
    sections: &[Section],
    end: &NumLine,
    do_line: Option<u32>,
) -> Result<(), AllocError>
    ensures { let x = t.Nest (sections_tree sections.now) (line_tree end.now) in OnOk result (Emits output.old output.new (stmt_list x) (stmt_size x) (λ from. stmt_code (variables slots.now) (address_at targets.now) (around_of do_line) x from) (λ from. stmt_rows x from)) }
{
    let from = output.code.len();
    let finish = behind(from, next_size(output));
    let mut going = true;
    let mut left = sections.len();
    for section in sections {
        left -= 1;
        let spot = Spot {
            last: left == 0,
            going,
            do_line,
            finish,
        };
        emit_section(alloc, output, slots, targets, section, end, spot)?;
        going = continues(going, &section.head.item);
    }
    Ok(())
}

#[cycle(emits)]
fn emit_section(
    alloc: Global,
    output: &mut Output,
    slots: &Slots,
    targets: &Targets,
    section: &Section,
    end: &NumLine,
    spot: Spot,
) -> Result<(), AllocError>
    ensures { let x = section_tree section.now in OnOk result (spot.finish ≤ code_limit → Emits output.old output.new (own_list spot.going x.0.item (counted (block_size x.1)) (block_list x.1)) (own_size spot.going x.0.item (item_tree end.now.item) spot.last (block_size x.1)) (λ from. own_code (variables slots.now) (address_at targets.now) spot.going (around_of spot.do_line) x.0.line x.0.item (line_tree end.now) spot.last (block_size x.1) (λ inner at. block_code (variables slots.now) (address_at targets.now) inner x.1 at) from spot.finish) (λ from. own_rows spot.going x.0.line x.0.item (line_tree end.now) (block_size x.1) (λ at. block_rows x.1 at) from spot.finish)) }
{
    if !spot.going {
        return Ok(());
    }
    let body = &section.body;
    let line = section.head.line;
    match kind_of(&section.head.item) {
        LineKind::If(c) => emit_test(alloc, output, slots, targets, body, line, c, spot),
        LineKind::Elseif(c) => emit_test(alloc, output, slots, targets, body, line, c, spot),
        LineKind::Else => emit_listed(alloc, output, slots, targets, body, spot.do_line),
        LineKind::Do(loopc) => {
            emit_do(
                alloc,
                output,
                slots,
                targets,
                body,
                line,
                loopc,
                end,
                spot.finish,
            )
        }
        LineKind::Alone(_) => Ok(()),
        LineKind::Loop(_) => Ok(()),
        LineKind::End => Ok(()),
        LineKind::Remark => Ok(()),
        LineKind::Other => Ok(()),
    }
}

// A block, whose size stands before those inside it.
#[cycle(emits)]
fn emit_listed(
    alloc: Global,
    output: &mut Output,
    slots: &Slots,
    targets: &Targets,
    body: &Block,
    do_line: Option<u32>,
) -> Result<(), AllocError>
    ensures { OnOk result (Emits output.old output.new (counted (block_size (block_tree body.now)) ∷ block_list (block_tree body.now)) (block_size (block_tree body.now)) (λ from. block_code (variables slots.now) (address_at targets.now) (around_of do_line) (block_tree body.now) from) (λ from. block_rows (block_tree body.now) from)) }
{
    next_size(output);
    emit_block(alloc, output, slots, targets, body, do_line)
}

// The mark, the condition, the block, and the jump behind it that the last one has not.
#[cycle(emits)]
fn emit_test(
    alloc: Global,
    output: &mut Output,
    slots: &Slots,
    targets: &Targets,
    body: &Block,
    line: Line,
    c: &Cond,
    spot: Spot,
) -> Result<(), AllocError>
    ensures { OnOk result (spot.finish ≤ code_limit → Emits output.old output.new (counted (block_size (block_tree body.now)) ∷ block_list (block_tree body.now)) (1 + (cond_size (cond_tree c.now) + (block_size (block_tree body.now) + part_end_size spot.last))) (λ from. test_code (variables slots.now) (address_at targets.now) (around_of spot.do_line) line (cond_tree c.now) spot.last (block_size (block_tree body.now)) (λ inner at. block_code (variables slots.now) (address_at targets.now) inner (block_tree body.now) at) from spot.finish) (λ from. test_rows line (cond_tree c.now) (λ at. block_rows (block_tree body.now) at) from spot.finish)) }
{
    let start = output.code.len();
    let block = next_size(output);
    let cond = condition_size(alloc, c)?;
    output.code.push(Instr::Mark(line))?;
    let head = output.code.len();
    let to = behind(
        behind(behind(head, cond), block),
        size_of_part_end(spot.last),
    );
    let aim = Aim {
        wanted: false,
        to: narrowed(to),
    };
    put_aimed(alloc, &mut output.code, slots, c, aim)?;
    let end = output.code.len();
    enter(output, line, start, end, spot.finish)?;
    emit_block(alloc, output, slots, targets, body, spot.do_line)?;
    put_part_end(&mut output.code, spot.last, spot.finish)
}

// The mark, the condition, the block, the line that closes it, and the jump back.
#[cycle(emits)]
fn emit_do(
    alloc: Global,
    output: &mut Output,
    slots: &Slots,
    targets: &Targets,
    body: &Block,
    line: Line,
    loopc: &Option<Loopc>,
    end: &NumLine,
    finish: usize,
) -> Result<(), AllocError>
    ensures { OnOk result (finish ≤ code_limit → Emits output.old output.new (counted (block_size (block_tree body.now)) ∷ block_list (block_tree body.now)) (1 + (loopc_size (option_map loopc_tree loopc.now) + (block_size (block_tree body.now) + (closing_size (item_tree end.now.item) + 1)))) (λ from. do_section_code (variables slots.now) (address_at targets.now) line (option_map loopc_tree loopc.now) (line_tree end.now) (block_size (block_tree body.now)) (λ at. block_code (variables slots.now) (address_at targets.now) (around_of (Some line)) (block_tree body.now) at) from finish) (λ from. do_section_rows line (option_map loopc_tree loopc.now) (line_tree end.now) (block_size (block_tree body.now)) (λ at. block_rows (block_tree body.now) at) from finish)) }
{
    let start = output.code.len();
    output.code.push(Instr::Mark(line))?;
    put_loopc(alloc, &mut output.code, slots, loopc, narrowed(finish))?;
    let head = output.code.len();
    enter(output, line, start, head, finish)?;
    let number = line.number();
    emit_listed(alloc, output, slots, targets, body, Some(number))?;
    let from = output.code.len();
    put_closing(alloc, &mut output.code, slots, targets, number, end)?;
    output
        .code
        .push(Instr::Jump(JumpInstr::Jump(narrowed(start))))?;
    enter_closing(alloc, output, end, from, finish)
}
