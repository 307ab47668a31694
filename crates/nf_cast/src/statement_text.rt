//! The text of statements and of blocks.

ghost use Rattle.std.specs.Prelude.{◌≡◌, ◌++◌, ◌∷◌, OnOk, IfOk, codes, flat_map};
ghost use Rattle.std.specs.Option.{option_copied};
ghost use Rattle.nf_cast.specs.Text.{stmt_text, block_text, const_text, right_text, expression_text, header_text, header_start, header_step, header_end, return_text, line_of, deeper};

use crate::expression_text::{push_bound, push_call, push_expression, push_right};
use crate::expressions::{CBound, CExpr, CRight};
use crate::statements::{CBlock, CStmt};
use nf_core::{Lines, NoMemory, Text};
use std::alloc::Global;

/// Puts the text of a statement at the end of others (`stmt_text` in specs/Text.antt). The margin is what
/// stands before each of its lines. It calls itself for the statements of its blocks.
#[cycle(statement)]
#[tactic(auto, unfolding(crate::specs::Text::stmt_text, crate::specs::Text::block_text, crate::specs::Text::else_text))]
fn push_statement(
    alloc: Global,
    statement: &CStmt,
    margin: &[u8],
    lines: &mut Lines,
) -> Result<(), NoMemory>
    ensures { OnOk result (lines.new ≡ lines.old ++ stmt_text statement.now margin.now) }
{
    match statement {
        CStmt::Local {
            constant,
            name,
            right,
        } => push_local(*constant, name, right, lines),
        CStmt::Assign(name, right) => push_assignment(name, right, lines),
        CStmt::Store(name, index, value) => push_store(name, index, value, lines),
        CStmt::Call(name, arguments) => {
            push_call(name.as_str(), arguments.as_slice(), lines)?;
            lines.push(b";")
        }
        CStmt::If(condition, block, None) => {
            push_condition(condition, lines)?;
            push_block(alloc, block, margin, lines)
        }
        CStmt::If(condition, block, Some(otherwise)) => {
            push_condition(condition, lines)?;
            push_block(alloc, block, margin, lines)?;
            lines.push(b" else ")?;
            push_block(alloc, otherwise, margin, lines)
        }
        CStmt::For { name, bound, body } => {
            push_header(name, bound, lines)?;
            push_block(alloc, body, margin, lines)
        }
        CStmt::Return(value) => push_return(value.as_ref(), lines),
    }
}

/// Puts the text of a block at the end of others: `{`, its statements line by line with a deeper margin,
/// and `}` at the margin (`block_text` in specs/Text.antt).
#[cycle(statement)]
#[tactic(auto, unfolding(crate::specs::Text::stmt_text, crate::specs::Text::block_text))]
pub(crate) fn push_block(
    alloc: Global,
    block: &CBlock,
    margin: &[u8],
    lines: &mut Lines,
) -> Result<(), NoMemory>
    ensures { OnOk result (lines.new ≡ lines.old ++ block_text block.now margin.now) }
{
    let deeper = deeper_margin(alloc, margin)?;
    lines.push(b"{\n")?;
    push_statements(alloc, block.stmts.as_slice(), deeper.as_slice(), lines)?;
    lines.push(margin)?;
    lines.push(b"}")
}

/// Puts statements at the end of other text, each on its line.
#[cycle(statement)]
fn push_statements(
    alloc: Global,
    statements: &[CStmt],
    margin: &[u8],
    lines: &mut Lines,
) -> Result<(), NoMemory>
    ensures { OnOk result (lines.new
        ≡ lines.old ++ flat_map (λ stmt. line_of margin.now (stmt_text stmt)) statements.now) }
{
    for statement in statements {
        lines.push(margin)?;
        push_statement(alloc, statement, margin, lines)?;
        lines.push(b"\n")?;
    }
    Ok(())
}

/// A margin with two more spaces.
fn deeper_margin(alloc: Global, margin: &[u8]) -> Result<Lines, NoMemory>
    ensures { IfOk result (λ lines. lines ≡ deeper margin.now) }
{
    let mut deeper = Lines::new(alloc);
    deeper.push(margin)?;
    deeper.push(b"  ")?;
    Ok(deeper)
}

/// Puts a declaration at the end of other text.
fn push_local(
    constant: bool,
    name: &Text,
    right: &CRight,
    lines: &mut Lines,
) -> Result<(), NoMemory>
    ensures { OnOk result (lines.new ≡ lines.old ++ const_text constant ++ codes "int64_t "
        ++ name.now ++ codes " = " ++ right_text right.now ++ codes ";") }
{
    push_const(constant, lines)?;
    lines.push(b"int64_t ")?;
    push_assignment(name, right, lines)
}

/// Puts the first word of a constant's declaration at the end of other text.
fn push_const(constant: bool, lines: &mut Lines) -> Result<(), NoMemory>
    ensures { OnOk result (lines.new ≡ lines.old ++ const_text constant) }
{
    if constant {
        lines.push(b"const ")
    } else {
        Ok(())
    }
}

/// Puts an assignment at the end of other text.
fn push_assignment(name: &Text, right: &CRight, lines: &mut Lines) -> Result<(), NoMemory>
    ensures { OnOk result (lines.new
        ≡ lines.old ++ name.now ++ codes " = " ++ right_text right.now ++ codes ";") }
{
    lines.push(name.as_str().as_bytes())?;
    lines.push(b" = ")?;
    push_right(right, lines)?;
    lines.push(b";")
}

/// Puts an assignment to an element at the end of other text.
fn push_store(name: &Text, index: &CExpr, value: &CExpr, lines: &mut Lines) -> Result<(), NoMemory>
    ensures { OnOk result (lines.new ≡ lines.old ++ name.now ++ codes "["
        ++ expression_text index.now ++ codes "] = " ++ expression_text value.now ++ codes ";") }
{
    lines.push(name.as_str().as_bytes())?;
    lines.push(b"[")?;
    push_expression(index, lines)?;
    lines.push(b"] = ")?;
    push_expression(value, lines)?;
    lines.push(b";")
}

/// Puts a condition at the end of other text, as it stands before a block.
fn push_condition(condition: &CExpr, lines: &mut Lines) -> Result<(), NoMemory>
    ensures { OnOk result (lines.new
        ≡ lines.old ++ codes "if (" ++ expression_text condition.now ++ codes ") ") }
{
    lines.push(b"if (")?;
    push_expression(condition, lines)?;
    lines.push(b") ")
}

/// Puts the header of a loop at the end of other text.
fn push_header(name: &Text, bound: &CBound, lines: &mut Lines) -> Result<(), NoMemory>
    ensures { OnOk result (lines.new ≡ lines.old ++ header_text name.now bound.now) }
{
    push_start(name, lines)?;
    push_bound(bound, lines)?;
    push_step(name, lines)
}

/// Puts the header of a loop up to its bound at the end of other text.
#[tactic(auto, unfolding(crate::specs::Text::header_start))]
fn push_start(name: &Text, lines: &mut Lines) -> Result<(), NoMemory>
    ensures { OnOk result (lines.new ≡ lines.old ++ header_start name.now) }
{
    push_between(b"for (int64_t ", name, b" = INT64_C(0); ", lines)?;
    push_between(b"", name, b" < ", lines)
}

/// Puts the header of a loop behind its bound at the end of other text.
#[tactic(auto, unfolding(crate::specs::Text::header_step))]
fn push_step(name: &Text, lines: &mut Lines) -> Result<(), NoMemory>
    ensures { OnOk result (lines.new ≡ lines.old ++ header_step name.now) }
{
    push_between(b"; ", name, b" = ", lines)?;
    push_end(name, lines)
}

/// Puts a name plus one, and the end of a loop's header, at the end of other text.
#[tactic(auto, unfolding(crate::specs::Text::header_end))]
fn push_end(name: &Text, lines: &mut Lines) -> Result<(), NoMemory>
    ensures { OnOk result (lines.new ≡ lines.old ++ header_end name.now) }
{
    lines.push(name.as_str().as_bytes())?;
    lines.push(b" + INT64_C(1)) ")
}

/// Puts a name with what stands before and behind it at the end of other text.
fn push_between(
    before: &[u8],
    name: &Text,
    behind: &[u8],
    lines: &mut Lines,
) -> Result<(), NoMemory>
    ensures { OnOk result (lines.new ≡ lines.old ++ before.now ++ name.now ++ behind.now) }
{
    lines.push(before)?;
    lines.push(name.as_str().as_bytes())?;
    lines.push(behind)
}

/// Puts a return at the end of other text.
#[tactic(auto, unfolding(crate::specs::Text::return_text))]
fn push_return(value: Option<&CExpr>, lines: &mut Lines) -> Result<(), NoMemory>
    ensures { OnOk result (lines.new ≡ lines.old ++ return_text (option_copied value.entry)) }
{
    match value {
        None => lines.push(b"return;"),
        Some(value) => {
            lines.push(b"return ")?;
            push_expression(value, lines)?;
            lines.push(b";")
        }
    }
}
