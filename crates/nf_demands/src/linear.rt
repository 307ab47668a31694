//! Linear forms over the ends of two members.

ghost use Rattle.std.specs.Prelude.{◌≡◌, ◌+ℤ◌, ◌-ℤ◌};
ghost use Rattle.nf_demands.specs.Linear.{number_form, form_where, fitting, start_form, stop_form, plus, minus, combined, linear_of};

use nf_core::{BinOp, Term};

/// A whole number and the ends of two members, each end taken so many times, added up.
#[derive(Debug, Clone, Copy)]
pub(crate) struct LinearForm {
    pub number: i128,
    pub first_start: i128,
    pub first_stop: i128,
    pub second_start: i128,
    pub second_stop: i128,
}

/// The linear form of an expression. None where the expression is not linear, and where a number of
/// a form doesn't fit 128 bits (`linear_of` of specs/Linear).
///
/// It calls itself for each operand, so it stands at most one more call deep than the expression
/// has operators.
#[tactic(auto, unfolding(crate::specs::Linear::linear_of, crate::specs::Linear::linear_at_node))]
pub(crate) fn linear(term: &Term) -> Option<LinearForm>
    ensures { result ≡ linear_of term.now }
{
    match term {
        Term::Int(n) => Some(LinearForm::of_number(*n)),
        Term::Start(member) => LinearForm::of_start(*member),
        Term::Stop(member) => LinearForm::of_stop(*member),
        Term::Neg(operand) => LinearForm::of_number(0).minus(linear(operand.get())?),
        Term::Bin(op, left, right) => binary(*op, linear(left.get()), linear(right.get())),
        _ => None,
    }
}

// The linear form of a sum or a difference, from those of its operands.
#[tactic(auto, unfolding(crate::specs::Linear::combined))]
fn binary(op: BinOp, left: Option<LinearForm>, right: Option<LinearForm>) -> Option<LinearForm>
    ensures { result ≡ combined op left right }
{
    match op {
        BinOp::Add => left?.plus(right?),
        BinOp::Sub => left?.minus(right?),
        _ => None,
    }
}

impl LinearForm {
    // A whole number alone.
    fn of_number(number: i64) -> LinearForm
        ensures { result ≡ number_form number }
    {
        LinearForm {
            number: number as i128,
            first_start: 0,
            first_stop: 0,
            second_start: 0,
            second_stop: 0,
        }
    }

    // The begin of a member alone.
    #[tactic(auto, unfolding(crate::specs::Linear::start_form))]
    fn of_start(member: u8) -> Option<LinearForm>
        ensures { result ≡ start_form member }
    {
        let mut form = LinearForm::of_number(0);
        match member {
            0 => form.first_start = 1,
            1 => form.second_start = 1,
            _ => return None,
        }
        Some(form)
    }

    // The end of a member alone.
    #[tactic(auto, unfolding(crate::specs::Linear::stop_form))]
    fn of_stop(member: u8) -> Option<LinearForm>
        ensures { result ≡ stop_form member }
    {
        let mut form = LinearForm::of_number(0);
        match member {
            0 => form.first_stop = 1,
            1 => form.second_stop = 1,
            _ => return None,
        }
        Some(form)
    }

    // The form of these numbers, where each of them is there.
    fn of_parts(
        number: Option<i128>,
        first_start: Option<i128>,
        first_stop: Option<i128>,
        second_start: Option<i128>,
        second_stop: Option<i128>,
    ) -> Option<LinearForm>
        ensures { result ≡ form_where number first_start first_stop second_start second_stop }
    {
        Some(LinearForm {
            number: number?,
            first_start: first_start?,
            first_stop: first_stop?,
            second_start: second_start?,
            second_stop: second_stop?,
        })
    }

    // The sum of two forms. None where a number of it doesn't fit 128 bits.
    #[tactic(auto, unfolding(crate::specs::Linear::plus))]
    fn plus(self, other: LinearForm) -> Option<LinearForm>
        ensures { result ≡ plus self other }
    {
        LinearForm::of_parts(
            sum(self.number, other.number),
            sum(self.first_start, other.first_start),
            sum(self.first_stop, other.first_stop),
            sum(self.second_start, other.second_start),
            sum(self.second_stop, other.second_stop),
        )
    }

    /// The difference of two forms. None where a number of it doesn't fit 128 bits.
    #[tactic(auto, unfolding(crate::specs::Linear::minus))]
    pub(crate) fn minus(self, other: LinearForm) -> Option<LinearForm>
        ensures { result ≡ minus self other }
    {
        LinearForm::of_parts(
            difference(self.number, other.number),
            difference(self.first_start, other.first_start),
            difference(self.first_stop, other.first_stop),
            difference(self.second_start, other.second_start),
            difference(self.second_stop, other.second_stop),
        )
    }
}

/// The sum of two numbers, where it fits 128 bits.
#[tactic(auto, unfolding(crate::specs::Linear::fitting))]
pub(crate) fn sum(m: i128, n: i128) -> Option<i128>
    ensures { result ≡ fitting (m +ℤ n) }
{
    m.checked_add(n)
}

/// The difference of two numbers, where it fits 128 bits.
#[tactic(auto, unfolding(crate::specs::Linear::fitting))]
pub(crate) fn difference(m: i128, n: i128) -> Option<i128>
    ensures { result ≡ fitting (m -ℤ n) }
{
    m.checked_sub(n)
}
