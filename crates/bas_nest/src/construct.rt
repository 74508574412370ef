//! What lines do in the nesting: the lines that open, divide and close constructs, and where they may
//! stand.

ghost use Rattle.std.specs.Prelude.{◌≡◌};
ghost use Rattle.bas_ast.specs.BlockTree.{item_tree};
ghost use Rattle.bas_ast.specs.PartTree.{part_tree};
ghost use Rattle.bas_nest.specs.Constructs as constructs;

use bas_ast::{LineItem, Part};
use bas_base::Name;

/// An open section of a construct, by the line that it begins with.
#[derive(Clone, Copy)]
pub enum Construct {
    /// Behind `IF` or `ELSEIF`.
    If,
    Else,
    For,
    Do,
    /// Behind `SELECT CASE`, where no line stands that belongs to a body.
    Select,
    Case,
    CaseElse,
    /// Behind `WHEN EXCEPTION IN`.
    When,
    /// Behind `USE`.
    Attached,
    /// Behind `WHEN EXCEPTION USE` and a name.
    Detached,
    Handler,
    Sub,
    Function,
}

/// Where a line stands.
#[derive(Clone, Copy)]
pub enum Around {
    /// At the top of a program or an external procedure.
    Unit,
    /// At the top of an internal procedure.
    Internal,
    /// Behind `SELECT CASE`.
    Select,
    /// In a block, or in a module's initial part.
    Block,
}

/// A line that begins another section of a construct.
#[derive(Clone, Copy)]
pub enum Divider {
    Elseif,
    Else,
    Case,
    CaseElse,
    Use,
}

/// A line that closes a construct. `EndSub` and `EndFunction` close external procedures too.
#[derive(Clone, Copy)]
pub enum Closer {
    EndIf,
    Next,
    Loop,
    EndSelect,
    EndWhen,
    EndHandler,
    EndSub,
    EndFunction,
}

/// What a line does in the nesting.
#[derive(Clone, Copy)]
pub enum Role {
    /// It is empty, or holds a remark alone.
    Remark,
    /// A statement or a declaration.
    Plain,
    /// `DEF`
    Defines,
    Opens(Construct),
    Divides(Divider),
    Closes(Closer),
    /// `PROGRAM`
    BeginsProgram,
    /// `EXTERNAL SUB`
    BeginsSub,
    /// `EXTERNAL FUNCTION`
    BeginsFunction,
    /// `MODULE`
    BeginsModule,
    /// `END`
    EndsProgram,
    /// `END MODULE`
    EndsModule,
}

#[tactic(auto, unfolding(bas_ast::specs::PartTree::part_tree))]
fn role_of_part(part: &Part) -> Role
    ensures { result ≡ constructs.role_of_part (part_tree part.now) }
{
    match part {
        Part::If(_) => Role::Opens(Construct::If),
        Part::Elseif(_) => Role::Divides(Divider::Elseif),
        Part::Else => Role::Divides(Divider::Else),
        Part::EndIf => Role::Closes(Closer::EndIf),
        Part::For { .. } => Role::Opens(Construct::For),
        Part::Next(_) => Role::Closes(Closer::Next),
        Part::Do(_) => Role::Opens(Construct::Do),
        Part::Loop(_) => Role::Closes(Closer::Loop),
        Part::SelectCase(_) => Role::Opens(Construct::Select),
        Part::Case(_) => Role::Divides(Divider::Case),
        Part::CaseElse => Role::Divides(Divider::CaseElse),
        Part::EndSelect => Role::Closes(Closer::EndSelect),
        Part::WhenExceptionIn => Role::Opens(Construct::When),
        Part::Use => Role::Divides(Divider::Use),
        Part::WhenExceptionUse(_) => Role::Opens(Construct::Detached),
        Part::EndWhen => Role::Closes(Closer::EndWhen),
        Part::Handler(_) => Role::Opens(Construct::Handler),
        Part::EndHandler => Role::Closes(Closer::EndHandler),
        Part::Sub(_, _) => Role::Opens(Construct::Sub),
        Part::Function(_, _) => Role::Opens(Construct::Function),
        Part::ExternalSub(_, _) => Role::BeginsSub,
        Part::ExternalFunction(_, _) => Role::BeginsFunction,
        Part::EndSub => Role::Closes(Closer::EndSub),
        Part::EndFunction => Role::Closes(Closer::EndFunction),
        Part::Def(_, _, _) => Role::Defines,
        Part::Program(_, _) => Role::BeginsProgram,
        Part::End => Role::EndsProgram,
        Part::Module(_) => Role::BeginsModule,
        Part::EndModule => Role::EndsModule,
    }
}

/// What the line does in the nesting.
#[tactic(auto, unfolding(bas_ast::specs::BlockTree::item_tree))]
pub fn role_of(item: &LineItem) -> Role
    ensures { result ≡ constructs.role_of (item_tree item.now) }
{
    match item {
        LineItem::Nothing | LineItem::Rem(_) => Role::Remark,
        LineItem::Simple(_) | LineItem::Decl(_) => Role::Plain,
        LineItem::Part(part) => role_of_part(part.get()),
    }
}

/// The name that a `PROGRAM` line gives.
#[tactic(auto, unfolding(bas_ast::specs::BlockTree::item_tree, bas_ast::specs::PartTree::part_tree))]
pub fn program_name(item: &LineItem) -> Option<Name>
    ensures { result ≡ constructs.program_name (item_tree item.now) }
{
    match item {
        LineItem::Part(part) => match part.get() {
            Part::Program(name, _) => Some(*name),
            _ => None,
        },
        _ => None,
    }
}

/// The section that the line opens a construct with.
pub fn opens(role: Role) -> Option<Construct>
    ensures { result ≡ constructs.opens role }
{
    match role {
        Role::Opens(construct) => Some(construct),
        _ => None,
    }
}

fn divided_by(construct: Construct, divider: Divider) -> Option<Construct>
    ensures { result ≡ constructs.divided_by construct divider }
{
    match (divider, construct) {
        (Divider::Elseif, Construct::If) => Some(Construct::If),
        (Divider::Else, Construct::If) => Some(Construct::Else),
        (Divider::Case, Construct::Select | Construct::Case) => Some(Construct::Case),
        (Divider::CaseElse, Construct::Select | Construct::Case) => Some(Construct::CaseElse),
        (Divider::Use, Construct::When) => Some(Construct::Attached),
        _ => None,
    }
}

/// The section that the line begins behind another section of the same construct.
pub fn divides(construct: Construct, role: Role) -> Option<Construct>
    ensures { result ≡ constructs.divides construct role }
{
    match role {
        Role::Divides(divider) => divided_by(construct, divider),
        _ => None,
    }
}

fn closed_by(construct: Construct, closer: Closer) -> bool
    ensures { result ≡ constructs.same_closer (constructs.closer_of construct) closer }
{
    match (closer, construct) {
        (Closer::EndIf, Construct::If | Construct::Else) => true,
        (Closer::Next, Construct::For) | (Closer::Loop, Construct::Do) => true,
        (Closer::EndSelect, Construct::Select | Construct::Case | Construct::CaseElse) => true,
        (Closer::EndWhen, Construct::Attached | Construct::Detached) => true,
        (Closer::EndHandler, Construct::Handler) => true,
        (Closer::EndSub, Construct::Sub) | (Closer::EndFunction, Construct::Function) => true,
        _ => false,
    }
}

/// The line closes the construct behind the section.
pub fn closes(construct: Construct, role: Role) -> bool
    ensures { result ≡ constructs.closes construct role }
{
    match role {
        Role::Closes(closer) => closed_by(construct, closer),
        _ => false,
    }
}

/// A construct may be opened there: internal procedures at the top of a unit, handlers there or at the
/// top of an internal procedure, nothing behind `SELECT CASE`.
pub fn may_open(around: Around, construct: Construct) -> bool
    ensures { result ≡ constructs.may_open around construct }
{
    match (around, construct) {
        (Around::Unit, _) => true,
        (Around::Select, _) => false,
        (_, Construct::Sub) | (_, Construct::Function) => false,
        (Around::Internal, _) => true,
        (Around::Block, Construct::Handler) => false,
        (Around::Block, _) => true,
    }
}

/// The line may stand there alone: `DEF` at the top of a unit, remarks, statements and declarations
/// anywhere but behind `SELECT CASE`.
pub fn may_stand(around: Around, role: Role) -> bool
    ensures { result ≡ constructs.may_stand around role }
{
    match (around, role) {
        (Around::Select, _) => false,
        (_, Role::Remark) | (_, Role::Plain) => true,
        (Around::Unit, Role::Defines) => true,
        _ => false,
    }
}

/// The line is a remark behind `SELECT CASE`, which no body has.
pub fn is_left_out(around: Around, role: Role) -> bool
    ensures { result ≡ constructs.is_left_out around role }
{
    match (around, role) {
        (Around::Select, Role::Remark) => true,
        _ => false,
    }
}

/// Where the lines of a section stand.
pub fn inside(construct: Construct) -> Around
    ensures { result ≡ constructs.inside construct }
{
    match construct {
        Construct::Select => Around::Select,
        Construct::Sub | Construct::Function => Around::Internal,
        _ => Around::Block,
    }
}

/// The line is the first of an external procedure.
pub fn begins_procedure(role: Role) -> bool
    ensures { result ≡ constructs.begins_procedure role }
{
    match role {
        Role::BeginsSub | Role::BeginsFunction => true,
        _ => false,
    }
}

/// The line `close` closes the external procedure that begins with `head`.
pub fn closes_procedure(head: Role, close: Role) -> bool
    ensures { result ≡ constructs.closes_procedure head close }
{
    match (head, close) {
        (Role::BeginsSub, Role::Closes(Closer::EndSub)) => true,
        (Role::BeginsFunction, Role::Closes(Closer::EndFunction)) => true,
        _ => false,
    }
}
