//! What an expression asks (specs/Rules.antt): at its first token, then whether it is a condition or a
//! value, and then behind its first token. Each part of it is walked once, and the stack is as deep as
//! the tree.

ghost use Rattle.std.specs.Prelude.{◌≡◌, length, map};
ghost use Rattle.nf_cast.specs.Book.{steps};
ghost use Rattle.nf_cast.specs.Rules.{parts, whole, of_class, needs_conditions, is_condition, value_rules, condition_rules};

use crate::book::Book;
use crate::placed::PlacedExpr;
use crate::rules::CRule;
use nf_core::BinOp;

/// Whether an operator needs conditions, and else it needs values.
#[tactic(auto, unfolding(crate::specs::Rules::needs_conditions))]
fn needs_conditions(operator: BinOp) -> bool
    ensures { result ≡ needs_conditions operator }
{
    match operator {
        BinOp::Or | BinOp::And => true,
        BinOp::Eq | BinOp::Ne | BinOp::Lt | BinOp::Le | BinOp::Gt | BinOp::Ge => false,
        BinOp::Add | BinOp::Sub | BinOp::Mul | BinOp::Div | BinOp::Rem => false,
    }
}

/// Whether an operator gives a condition, and else it gives a value.
#[tactic(auto, unfolding(crate::specs::Rules::is_condition))]
fn gives_condition(operator: BinOp) -> bool
    ensures { result ≡ is_condition operator }
{
    match operator {
        BinOp::Add | BinOp::Sub | BinOp::Mul | BinOp::Div | BinOp::Rem => false,
        BinOp::Eq | BinOp::Ne | BinOp::Lt | BinOp::Le | BinOp::Gt | BinOp::Ge => true,
        BinOp::Or | BinOp::And => true,
    }
}

/// Whether an expression is a condition, and else it is a value.
#[tactic(auto, unfolding(crate::specs::Rules::parts))]
fn is_condition(expression: &PlacedExpr) -> bool
    ensures { result ≡ (parts expression.now).condition }
{
    match expression {
        PlacedExpr::Lit(..) | PlacedExpr::Name(_) => false,
        PlacedExpr::Cell(..) | PlacedExpr::Neg(..) => false,
        PlacedExpr::Not(..) => true,
        PlacedExpr::Bin(operator, ..) => gives_condition(*operator),
        PlacedExpr::Parens(_, inner) => is_condition(inner.get()),
    }
}

impl Book {
    /// Asks what an expression asks at its first token, but its class. Answers the line of that token.
    #[tactic(auto, unfolding(crate::specs::Rules::parts))]
    fn front(&mut self, expression: &PlacedExpr) -> u64
        ensures line { result ≡ (parts expression.now).line }
        ensures asks { self.new ≡ (parts expression.now).front self.old }
    {
        match expression {
            PlacedExpr::Lit(line, _) => *line,
            PlacedExpr::Name(at) => {
                self.used_alone(at);
                at.line
            }
            PlacedExpr::Cell(at, _) => {
                self.used_with_index(at);
                at.line
            }
            PlacedExpr::Neg(line, _) => *line,
            PlacedExpr::Not(line, _) => *line,
            PlacedExpr::Bin(_, left, _) => self.front(left.get()),
            PlacedExpr::Parens(line, _) => *line,
        }
    }

    /// Asks whether an expression that begins at a line is a condition where one is wanted, and else a
    /// value.
    fn of_class(&mut self, wanted: bool, expression: &PlacedExpr, line: u64)
        ensures { line ≡ (parts expression.now).line
            → self.new ≡ of_class wanted (parts expression.now) self.old }
    {
        let met = is_condition(expression) == wanted;
        self.demand(line, CRule::Class, met);
    }

    /// Asks what an expression that begins at a line asks behind its first token.
    #[cycle(expression)]
    #[tactic(auto, unfolding(crate::specs::Rules::parts))]
    fn rest(&mut self, expression: &PlacedExpr, line: u64)
        ensures { line ≡ (parts expression.now).line
            → self.new ≡ (parts expression.now).rest self.old }
    {
        match expression {
            PlacedExpr::Lit(..) | PlacedExpr::Name(_) => {}
            PlacedExpr::Cell(_, index) => self.whole(false, index.get()),
            PlacedExpr::Neg(_, operand) => self.whole(false, operand.get()),
            PlacedExpr::Not(_, operand) => self.whole(true, operand.get()),
            PlacedExpr::Bin(operator, left, right) => {
                let wanted = needs_conditions(*operator);
                let left = left.get();
                self.of_class(wanted, left, line);
                self.rest(left, line);
                self.whole(wanted, right.get());
            }
            PlacedExpr::Parens(_, inner) => {
                let line = self.front(inner.get());
                self.rest(inner.get(), line);
            }
        }
    }

    /// Asks what a whole expression of a class asks.
    #[cycle(expression)]
    fn whole(&mut self, wanted: bool, expression: &PlacedExpr)
        ensures { self.new ≡ whole wanted (parts expression.now) self.old }
    {
        let line = self.front(expression);
        self.of_class(wanted, expression, line);
        self.rest(expression, line);
    }

    /// Asks what an expression asks that is to be a value.
    pub(crate) fn value(&mut self, expression: &PlacedExpr)
        ensures { self.new ≡ value_rules expression.now self.old }
    {
        self.whole(false, expression);
    }

    /// Asks what an expression asks that is to be a condition.
    pub(crate) fn condition(&mut self, expression: &PlacedExpr)
        ensures { self.new ≡ condition_rules expression.now self.old }
    {
        self.whole(true, expression);
    }

    /// Asks what values ask, one after the other.
    pub(crate) fn values(&mut self, expressions: &[PlacedExpr])
        ensures { self.new ≡ steps (map value_rules expressions.now) self.old }
    {
        for expression in expressions {
            self.value(expression);
        }
    }
}
