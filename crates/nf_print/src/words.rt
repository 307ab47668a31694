//! The words of operators.

ghost use Rattle.std.specs.Prelude.{◌≡◌};
ghost use Rattle.nf_core.specs.Spelling.{mark_of, word_of_op, word_of_xop};

use nf_core::{BinOp, Op, Xop};

/// The mark of a binary operator (`mark_of` of nf_core's specs/Spelling).
#[tactic(auto, unfolding(nf_core::specs::Spelling::mark_of))]
pub(crate) fn mark_of(operator: BinOp) -> &'static str
    ensures { result.now ≡ mark_of operator }
{
    match operator {
        BinOp::Or => "|",
        BinOp::And => "&",
        BinOp::Eq => "=",
        BinOp::Ne => "!=",
        BinOp::Lt => "<",
        BinOp::Le => "<=",
        BinOp::Gt => ">",
        BinOp::Ge => ">=",
        BinOp::Add => "+",
        BinOp::Sub => "-",
        BinOp::Mul => "*",
        BinOp::Div => "/",
        BinOp::Rem => "%",
    }
}

/// The keyword of an inclusive operator (`word_of_op` of nf_core's specs/Spelling).
#[tactic(auto, unfolding(nf_core::specs::Spelling::word_of_op))]
pub(crate) fn word_of_op(operator: Op) -> &'static str
    ensures { result.now ≡ word_of_op operator }
{
    match operator {
        Op::Before => "before",
        Op::Meet => "meet",
        Op::During => "during",
        Op::Coincide => "coincide",
        Op::Start => "start",
        Op::Finish => "finish",
        Op::Overlap => "overlap",
        Op::Slice => "slice",
    }
}

/// The keyword of an exclusive operator (`word_of_xop` of nf_core's specs/Spelling).
#[tactic(auto, unfolding(nf_core::specs::Spelling::word_of_xop))]
pub(crate) fn word_of_xop(operator: Xop) -> &'static str
    ensures { result.now ≡ word_of_xop operator }
{
    match operator {
        Xop::After => "after",
        Xop::Follow => "follow",
        Xop::Contain => "contain",
    }
}
