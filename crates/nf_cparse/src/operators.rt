//! The table of operators.

ghost use Rattle.std.specs.Prelude.{◌≡◌};
ghost use Rattle.nf_grammar.specs.inner.Parsers.{in_table};
ghost use Rattle.nf_cparse.specs.inner.ExpressionReading.{op_at};

use crate::level::Level;
use crate::symbol::Sym;
use nf_core::BinOp;

/// The operator of a level that comes next, if one does.
#[tactic(auto, unfolding(crate::specs::inner::ExpressionReading::op_at, crate::specs::Grammar::op_of, nf_cast::specs::Written::c_level))]
pub(crate) fn op_at(level: Level, next: Option<Sym>) -> Option<BinOp>
    ensures { result ≡ in_table (op_at level) next }
{
    match (level, next?) {
        (Level::Or, Sym::Or) => Some(BinOp::Or),
        (Level::And, Sym::And) => Some(BinOp::And),
        (Level::Equality, Sym::EqualEqual) => Some(BinOp::Eq),
        (Level::Equality, Sym::NotEqual) => Some(BinOp::Ne),
        (Level::Relation, Sym::Less) => Some(BinOp::Lt),
        (Level::Relation, Sym::LessEqual) => Some(BinOp::Le),
        (Level::Relation, Sym::Greater) => Some(BinOp::Gt),
        (Level::Relation, Sym::GreaterEqual) => Some(BinOp::Ge),
        (Level::Sum, Sym::Plus) => Some(BinOp::Add),
        (Level::Sum, Sym::Minus) => Some(BinOp::Sub),
        (Level::Product, Sym::Star) => Some(BinOp::Mul),
        (Level::Product, Sym::Slash) => Some(BinOp::Div),
        (Level::Product, Sym::Percent) => Some(BinOp::Rem),
        _ => None,
    }
}
