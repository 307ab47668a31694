//! The kinds of expressions, or their first faults.

ghost use Rattle.std.specs.Prelude.{◌≡◌, Some};
ghost use Rattle.std.specs.Result.{result_err};
ghost use Rattle.nf_core.specs.Kinds.{kind_of_negated, kind_of_inverted, kind_of_binary};
ghost use Rattle.nf_typing.specs.Faults.{clause_fault};
ghost use Rattle.nf_typing.specs.inner.Meant.{kind_meant, Finds, FindsOperator};

use crate::clause::Clause;
use crate::fault::KindFault;
use crate::kind::{Kind, fits, gives, takes};
use crate::labels::check_read;
use nf_core::{BinOp, Expr, Rule};

/// The first fault of a clause of a rule (`clause_fault` of specs/Faults).
#[tactic(auto, unfolding(crate::specs::Faults::clause_fault))]
pub(crate) fn check_clause(rule: &Rule, clause: Clause, expr: &Expr) -> Result<(), KindFault>
    ensures { result_err result ≡ clause_fault rule.now.body clause expr.now }
{
    let kind = checked(rule, clause, expr)?;
    if !fits(clause, kind) {
        return Err(KindFault::WrongKind);
    }
    Ok(())
}

// The kind of an expression of a clause, or its first fault: operands before their operator, and left
// before right. It calls itself for each operand, so it stands as many calls deep as the expression has
// nodes on a way down, which is at most one more than it has operators: at most 257 calls in a rule.
#[tactic(auto, unfolding(crate::specs::Faults::expression_fault, crate::specs::Faults::read_fault, nf_core::specs::Kinds::kind_of_tree, nf_core::specs::Kinds::kind_of_negated, nf_core::specs::Kinds::kind_of_inverted, nf_core::specs::Kinds::kind_of_binary))]
fn checked(rule: &Rule, clause: Clause, expr: &Expr) -> Result<Kind, KindFault>
    ensures { Finds rule.now.body clause expr.now result }
{
    match expr {
        Expr::Bool(_) => Ok(Kind::Truth),
        Expr::Int(_) => Ok(Kind::Number),
        Expr::Text(_) => Ok(Kind::Text),
        Expr::Start(label) | Expr::Stop(label) => {
            check_read(rule, clause, label)?;
            Ok(Kind::Number)
        }
        Expr::Key(label, _) => {
            check_read(rule, clause, label)?;
            Ok(Kind::Any)
        }
        Expr::Neg(operand) => negated(checked(rule, clause, operand.get())?),
        Expr::Not(operand) => inverted(checked(rule, clause, operand.get())?),
        Expr::Bin(op, left, right) => {
            let left = checked(rule, clause, left.get())?;
            let right = checked(rule, clause, right.get())?;
            binary(*op, left, right)
        }
    }
}

// Unary `-` over an operand of this kind.
#[tactic(auto, unfolding(nf_core::specs::Kinds::kind_of_negated))]
fn negated(operand: Kind) -> Result<Kind, KindFault>
    ensures { FindsOperator (kind_of_negated (Some (kind_meant operand))) result }
{
    if operand.may_be_number() {
        Ok(Kind::Number)
    } else {
        Err(KindFault::WrongKind)
    }
}

// `!` over an operand of this kind.
#[tactic(auto, unfolding(nf_core::specs::Kinds::kind_of_inverted))]
fn inverted(operand: Kind) -> Result<Kind, KindFault>
    ensures { FindsOperator (kind_of_inverted (Some (kind_meant operand))) result }
{
    if operand.may_be_truth() {
        Ok(Kind::Truth)
    } else {
        Err(KindFault::WrongKind)
    }
}

// An operator over two operands of these kinds.
#[tactic(auto, unfolding(nf_core::specs::Kinds::kind_of_binary))]
fn binary(op: BinOp, left: Kind, right: Kind) -> Result<Kind, KindFault>
    ensures { FindsOperator
        (kind_of_binary op (Some (kind_meant left)) (Some (kind_meant right))) result }
{
    if takes(op, left) && takes(op, right) {
        Ok(gives(op))
    } else {
        Err(KindFault::WrongKind)
    }
}
