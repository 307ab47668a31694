//! The text of an expression, of a call and of a right side.

ghost use Rattle.std.specs.Prelude.{◌≡◌, ◌++◌, ◌∷◌, OnOk, codes, map, if◌then◌else◌};
ghost use Rattle.nf_cast.specs.Written.{written, enclosed, literal_text, c_mark};
ghost use Rattle.nf_cast.specs.Text.{call_text, right_text, bound_text, listed, expression_text};
ghost use Rattle.nf_cast.specs.Text.{others_text};

use crate::expressions::{CBound, CExpr, CRight};
use crate::levels::{is_minus, left_in_parens, mark_of, operand_in_parens, right_in_parens};
use itoa::Buffer;
use nf_core::{BinOp, Lines, NoMemory};

/// Puts the text of an expression at the end of others (`written` in specs/Written.antt). It calls
/// itself for each operand, so its stack is as deep as the tree.
#[cycle(expression)]
#[tactic(auto, unfolding(crate::specs::Written::written))]
pub(crate) fn push_expression(expression: &CExpr, lines: &mut Lines) -> Result<(), NoMemory>
    ensures { OnOk result (lines.new ≡ lines.old ++ (written expression.now).text) }
{
    match expression {
        CExpr::Lit(number) => push_literal(*number, lines),
        CExpr::Name(name) => lines.push(name.as_str().as_bytes()),
        CExpr::Cell(name, index) => {
            lines.push(name.as_str().as_bytes())?;
            lines.push(b"[")?;
            push_expression(index.get(), lines)?;
            lines.push(b"]")
        }
        CExpr::Neg(operand) => {
            let operand = operand.get();
            let in_parens = operand_in_parens(operand);
            push_minus(operand, in_parens, lines)?;
            push_operand(operand, in_parens, lines)
        }
        CExpr::Not(operand) => {
            let operand = operand.get();
            lines.push(b"!")?;
            push_operand(operand, operand_in_parens(operand), lines)
        }
        CExpr::Bin(operator, left, right) => {
            let left = left.get();
            let right = right.get();
            push_operand(left, left_in_parens(*operator, left), lines)?;
            push_mark(*operator, lines)?;
            push_operand(right, right_in_parens(*operator, right), lines)
        }
    }
}

/// Puts the text of an operand at the end of others, between parentheses where it stands in them.
#[cycle(expression)]
#[tactic(auto, unfolding(crate::specs::Written::enclosed))]
fn push_operand(operand: &CExpr, in_parens: bool, lines: &mut Lines) -> Result<(), NoMemory>
    ensures { OnOk result (lines.new
        ≡ lines.old ++ (enclosed in_parens (written operand.now)).text) }
{
    if in_parens {
        lines.push(b"(")?;
        push_expression(operand, lines)?;
        lines.push(b")")
    } else {
        push_expression(operand, lines)
    }
}

/// Puts a literal at the end of other text.
pub(crate) fn push_literal(number: i64, lines: &mut Lines) -> Result<(), NoMemory>
    ensures { OnOk result (lines.new ≡ lines.old ++ literal_text number) }
{
    lines.push(b"INT64_C(")?;
    lines.push(Buffer::new().format(number).as_bytes())?;
    lines.push(b")")
}

/// Puts a unary `-` at the end of other text, and a space where its operand begins with one.
#[tactic(auto, unfolding(crate::specs::Written::enclosed))]
fn push_minus(operand: &CExpr, in_parens: bool, lines: &mut Lines) -> Result<(), NoMemory>
    ensures { OnOk result (lines.new ≡ lines.old
        ++ (if (enclosed in_parens (written operand.now)).is_minus then codes "- " else codes "-")) }
{
    if !in_parens && is_minus(operand) {
        lines.push(b"- ")
    } else {
        lines.push(b"-")
    }
}

/// Puts the mark of a binary operator at the end of other text, with a space on each side.
fn push_mark(operator: BinOp, lines: &mut Lines) -> Result<(), NoMemory>
    ensures { OnOk result (lines.new ≡ lines.old ++ codes " " ++ c_mark operator ++ codes " ") }
{
    lines.push(b" ")?;
    lines.push(mark_of(operator).as_bytes())?;
    lines.push(b" ")
}

/// Puts the text of a call at the end of others.
pub(crate) fn push_call(name: &str, arguments: &[CExpr], lines: &mut Lines) -> Result<(), NoMemory>
    ensures { OnOk result (lines.new ≡ lines.old ++ call_text name.now arguments.now) }
{
    lines.push(name.as_bytes())?;
    lines.push(b"(")?;
    push_arguments(arguments, lines)?;
    lines.push(b")")
}

/// Puts the texts of arguments at the end of others, with `, ` between them.
#[tactic(auto, unfolding(crate::specs::Text::listed))]
fn push_arguments(arguments: &[CExpr], lines: &mut Lines) -> Result<(), NoMemory>
    ensures { OnOk result (lines.new
        ≡ lines.old ++ listed (map expression_text arguments.now)) }
{
    match arguments {
        [] => Ok(()),
        [first, others @ ..] => {
            push_expression(first, lines)?;
            push_others(others, lines)
        }
    }
}

/// Puts the text of each argument at the end of others, each after `, `.
fn push_others(arguments: &[CExpr], lines: &mut Lines) -> Result<(), NoMemory>
    ensures { OnOk result (lines.new
        ≡ lines.old ++ others_text (map expression_text arguments.now)) }
{
    for argument in arguments {
        lines.push(b", ")?;
        push_expression(argument, lines)?;
    }
    Ok(())
}

/// Puts a right side at the end of other text.
#[tactic(auto, unfolding(crate::specs::Text::right_text))]
pub(crate) fn push_right(right: &CRight, lines: &mut Lines) -> Result<(), NoMemory>
    ensures { OnOk result (lines.new ≡ lines.old ++ right_text right.now) }
{
    match right {
        CRight::Call(name, arguments) => push_call(name.as_str(), arguments.as_slice(), lines),
        CRight::Value(expression) => push_expression(expression, lines),
    }
}

/// Puts the bound of a loop at the end of other text.
#[tactic(auto, unfolding(crate::specs::Text::bound_text))]
pub(crate) fn push_bound(bound: &CBound, lines: &mut Lines) -> Result<(), NoMemory>
    ensures { OnOk result (lines.new ≡ lines.old ++ bound_text bound.now) }
{
    match bound {
        CBound::Lit(number) => push_literal(*number, lines),
        CBound::Name(name) => lines.push(name.as_str().as_bytes()),
    }
}
