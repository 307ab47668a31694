//! The canonical text of an expression.

ghost use Rattle.std.specs.Prelude.{◌≡◌, ◌++◌, ◌∷◌, OnOk, codes};
ghost use Rattle.nf_core.specs.Trees.{tree, level, op_level, left_in_parens, right_in_parens, operand_in_parens};
ghost use Rattle.nf_core.specs.Spelling.{mark_of};
ghost use Rattle.nf_print.specs.Canonical.{expression_text, enclosed, minus_before};

use crate::words::mark_of;
use itoa::Buffer;
use nf_core::{BinOp, Expr, Lines, NoMemory};

/// The level of comparisons, which don't chain.
const COMPARISON_LEVEL: u8 = 3;

/// The level of the unary operators.
const UNARY_LEVEL: u8 = 6;

/// Puts the canonical text of an expression at the end of others (`expression_text` in
/// specs/Canonical.antt). It calls itself for each operand, so its stack is as deep as the tree.
#[cycle(printer)]
#[tactic(auto, unfolding(crate::specs::Canonical::expression_text))]
pub(crate) fn push_expression(expression: &Expr, lines: &mut Lines) -> Result<(), NoMemory>
    ensures { OnOk result (lines.new ≡ lines.old ++ expression_text (tree expression.now)) }
{
    match expression {
        Expr::Bool(true) => lines.push(b"true"),
        Expr::Bool(false) => lines.push(b"false"),
        Expr::Int(number) => lines.push(Buffer::new().format(*number).as_bytes()),
        Expr::Text(text) => push_text(text.as_str(), lines),
        Expr::Start(label) => push_read(label.as_str(), "begin", lines),
        Expr::Stop(label) => push_read(label.as_str(), "end", lines),
        Expr::Key(label, key) => push_read(label.as_str(), key.as_str(), lines),
        Expr::Neg(operand) => {
            let operand = operand.get();
            lines.push(minus_before(operand).as_bytes())?;
            push_operand(operand, operand_in_parens(operand), lines)
        }
        Expr::Not(operand) => {
            let operand = operand.get();
            lines.push(b"!")?;
            push_operand(operand, operand_in_parens(operand), lines)
        }
        Expr::Bin(operator, left, right) => {
            let left = left.get();
            let right = right.get();
            push_operand(left, left_in_parens(*operator, left), lines)?;
            push_mark(*operator, lines)?;
            push_operand(right, right_in_parens(*operator, right), lines)
        }
    }
}

/// Puts the canonical text of an operand at the end of others, between parentheses where it stands in
/// them.
#[cycle(printer)]
fn push_operand(operand: &Expr, in_parens: bool, lines: &mut Lines) -> Result<(), NoMemory>
    ensures { OnOk result (lines.new
        ≡ lines.old ++ enclosed in_parens (expression_text (tree operand.now))) }
{
    if in_parens {
        lines.push(b"(")?;
        push_expression(operand, lines)?;
        lines.push(b")")
    } else {
        push_expression(operand, lines)
    }
}

/// Puts a text between `"` at the end of others.
fn push_text(text: &str, lines: &mut Lines) -> Result<(), NoMemory>
    ensures { OnOk result (lines.new ≡ lines.old ++ codes "\"" ++ text.now ++ codes "\"") }
{
    lines.push(b"\"")?;
    lines.push(text.as_bytes())?;
    lines.push(b"\"")
}

/// Puts a read at the end of others: a label, `.`, and what is read.
fn push_read(label: &str, what: &str, lines: &mut Lines) -> Result<(), NoMemory>
    ensures { OnOk result (lines.new ≡ lines.old ++ label.now ++ codes "." ++ what.now) }
{
    lines.push(label.as_bytes())?;
    lines.push(b".")?;
    lines.push(what.as_bytes())
}

/// Puts the mark of a binary operator at the end of others, with a space on each side.
fn push_mark(operator: BinOp, lines: &mut Lines) -> Result<(), NoMemory>
    ensures { OnOk result (lines.new ≡ lines.old ++ codes " " ++ mark_of operator ++ codes " ") }
{
    lines.push(b" ")?;
    lines.push(mark_of(operator).as_bytes())?;
    lines.push(b" ")
}

/// What stands before the operand of a unary `-` (`minus_before` in specs/Canonical.antt).
#[tactic(auto, unfolding(crate::specs::Canonical::minus_before))]
fn minus_before(operand: &Expr) -> &'static str
    ensures { result.now ≡ minus_before (tree operand.now) }
{
    match operand {
        Expr::Neg(_) => "- ",
        _ => "-",
    }
}

/// Whether the left operand of a binary operator stands in parentheses.
fn left_in_parens(operator: BinOp, left: &Expr) -> bool
    ensures { result ≡ left_in_parens operator (tree left.now) }
{
    let level = level(left);
    let own = op_level(operator);
    level < own || (level == COMPARISON_LEVEL && own == COMPARISON_LEVEL)
}

/// Whether the right operand of a binary operator stands in parentheses.
fn right_in_parens(operator: BinOp, right: &Expr) -> bool
    ensures { result ≡ right_in_parens operator (tree right.now) }
{
    level(right) <= op_level(operator)
}

/// Whether the operand of a unary operator stands in parentheses.
fn operand_in_parens(operand: &Expr) -> bool
    ensures { result ≡ operand_in_parens (tree operand.now) }
{
    level(operand) < UNARY_LEVEL
}

/// The level of an expression: that of the operator at its top, and 7 where there is none (`level` in
/// specs/Trees.antt of nf_core).
#[tactic(auto, unfolding(nf_core::specs::Trees::level))]
fn level(expression: &Expr) -> u8
    ensures { result ≡ level (tree expression.now) }
{
    match expression {
        Expr::Neg(_) => UNARY_LEVEL,
        Expr::Not(_) => UNARY_LEVEL,
        Expr::Bin(operator, _, _) => op_level(*operator),
        _ => 7,
    }
}

/// The level of a binary operator (`op_level` in specs/Trees.antt of nf_core).
#[tactic(auto, unfolding(nf_core::specs::Trees::op_level))]
fn op_level(operator: BinOp) -> u8
    ensures { result ≡ op_level operator }
{
    match operator {
        BinOp::Or => 1,
        BinOp::And => 2,
        BinOp::Eq | BinOp::Ne | BinOp::Lt | BinOp::Le | BinOp::Gt | BinOp::Ge => COMPARISON_LEVEL,
        BinOp::Add | BinOp::Sub => 4,
        BinOp::Mul | BinOp::Div | BinOp::Rem => 5,
    }
}
