//! The operators of expressions, and where their operands stand in parentheses.

ghost use Rattle.std.specs.Prelude.{◌≡◌, nat_lt, nat_le};
ghost use Rattle.nf_cast.specs.Written.{c_mark, c_level, unary_level, written};

use crate::expressions::CExpr;
use nf_core::BinOp;

/// The level of the unary operators.
const UNARY_LEVEL: u8 = 7;

/// The level of what has no operator at its top.
const PRIMARY_LEVEL: u8 = 8;

/// The mark of a binary operator (`c_mark` in specs/Written.antt).
#[tactic(auto, unfolding(crate::specs::Written::c_mark))]
pub(crate) fn mark_of(operator: BinOp) -> &'static str
    ensures { result.now ≡ c_mark operator }
{
    match operator {
        BinOp::Or => "||",
        BinOp::And => "&&",
        BinOp::Eq => "==",
        BinOp::Ne => "!=",
        BinOp::Lt => "<",
        BinOp::Le => "<=",
        BinOp::Gt => ">",
        BinOp::Ge => ">=",
        BinOp::Add => "+",
        BinOp::Sub => "-",
        BinOp::Mul => "*",
        BinOp::Div => "/",
        BinOp::Rem => "%",
    }
}

/// The level of a binary operator (`c_level` in specs/Written.antt).
#[tactic(auto, unfolding(crate::specs::Written::c_level))]
fn level_of(operator: BinOp) -> u8
    ensures { result ≡ c_level operator }
{
    match operator {
        BinOp::Or => 1,
        BinOp::And => 2,
        BinOp::Eq | BinOp::Ne => 3,
        BinOp::Lt | BinOp::Le | BinOp::Gt | BinOp::Ge => 4,
        BinOp::Add | BinOp::Sub => 5,
        BinOp::Mul | BinOp::Div | BinOp::Rem => 6,
    }
}

/// The level of an expression: that of the operator at its top (`written` in specs/Written.antt).
#[tactic(auto, unfolding(crate::specs::Written::written))]
fn level(expression: &CExpr) -> u8
    ensures { result ≡ (written expression.now).level }
{
    match expression {
        CExpr::Neg(_) | CExpr::Not(_) => UNARY_LEVEL,
        CExpr::Bin(operator, _, _) => level_of(*operator),
        CExpr::Lit(_) | CExpr::Name(_) | CExpr::Cell(_, _) => PRIMARY_LEVEL,
    }
}

/// Whether a unary `-` stands at the top of an expression.
#[tactic(auto, unfolding(crate::specs::Written::written))]
pub(crate) fn is_minus(expression: &CExpr) -> bool
    ensures { result ≡ (written expression.now).is_minus }
{
    match expression {
        CExpr::Neg(_) => true,
        CExpr::Lit(_) | CExpr::Name(_) | CExpr::Cell(_, _) | CExpr::Not(_) | CExpr::Bin(_, _, _) =>
            { false }
    }
}

/// Whether the left operand of a binary operator stands in parentheses.
pub(crate) fn left_in_parens(operator: BinOp, left: &CExpr) -> bool
    ensures { result ≡ nat_lt (written left.now).level (c_level operator) }
{
    level(left) < level_of(operator)
}

/// Whether the right operand of a binary operator stands in parentheses.
pub(crate) fn right_in_parens(operator: BinOp, right: &CExpr) -> bool
    ensures { result ≡ nat_le (written right.now).level (c_level operator) }
{
    level(right) <= level_of(operator)
}

/// Whether the operand of a unary operator stands in parentheses.
pub(crate) fn operand_in_parens(operand: &CExpr) -> bool
    ensures { result ≡ nat_lt (written operand.now).level unary_level }
{
    level(operand) < UNARY_LEVEL
}
