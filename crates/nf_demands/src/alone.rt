//! Which members an expression reads.

ghost use Rattle.std.specs.Prelude.{◌≡◌};
ghost use Rattle.nf_demands.specs.Alone.{reads};

use nf_core::Term;

/// Whether an expression reads a member, 0 the first and 1 the second (`reads` of specs/Alone).
///
/// It calls itself for each operand, so it stands at most one more call deep than the expression
/// has operators.
#[tactic(auto, unfolding(crate::specs::Alone::reads, crate::specs::Alone::reads_at_node))]
pub(crate) fn reads(term: &Term, member: u8) -> bool
    ensures { result ≡ reads member term.now }
{
    match term {
        Term::Bool(_) | Term::Int(_) | Term::Text(_) => false,
        Term::Start(number) | Term::Stop(number) | Term::Key(number, _) => *number == member,
        Term::Neg(operand) | Term::Not(operand) => reads(operand.get(), member),
        Term::Bin(_, left, right) => reads(left.get(), member) || reads(right.get(), member),
    }
}
