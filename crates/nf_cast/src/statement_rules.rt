//! What a statement and a block ask (specs/Rules.antt). The stack is as deep as the blocks and the
//! expressions of the text.

ghost use Rattle.std.specs.Prelude.{◌≡◌, false, length, map, IfOk, OnOk, if◌then◌else◌};
ghost use Rattle.nf_cast.specs.declared.rules.Local.TheVariants as kind;
ghost use Rattle.nf_cast.specs.Book.{steps, is_array, fresh, used, assigned, declare, ends};
ghost use Rattle.nf_cast.specs.Rules.{call_rules, right_rules, value_rules, bound_rules, header_rules, optional_rules, return_rules, stmt_rules, block_rules};

use crate::book::Book;
use crate::placed::{
    PlacedBlock, PlacedBound, PlacedExpr, PlacedExprList, PlacedName, PlacedRight, PlacedStmt,
};
use crate::rules::{CRule, Local};
use nf_core::{NoMemory, Text};
use std::alloc::Global;

impl Book {
    /// Asks what a call asks that is a statement: at its name, and then in its arguments.
    fn call(&mut self, at: &PlacedName, arguments: &PlacedExprList)
        ensures { self.new ≡ ends false (call_rules at.now arguments.now self.old) }
    {
        self.called(at, arguments.len() as u64);
        self.values(arguments.as_slice());
        self.end(false);
    }

    /// Asks what stands to the right of `=` asks.
    #[tactic(auto, unfolding(crate::specs::Rules::right_rules))]
    fn right(&mut self, right: &PlacedRight)
        ensures { self.new ≡ right_rules right.now self.old }
    {
        match right {
            PlacedRight::Call(at, arguments) => {
                self.called_for_value(at, arguments.len() as u64);
                self.values(arguments.as_slice());
            }
            PlacedRight::Value(value) => self.value(value),
        }
    }

    /// Asks what an assignment asks.
    fn assignment(&mut self, at: &PlacedName, right: &PlacedRight)
        ensures { self.new ≡ ends false (right_rules right.now (assigned at.now self.old)) }
    {
        self.assigned(at);
        self.right(right);
        self.end(false);
    }

    /// Asks what an assignment to an element asks.
    fn store(&mut self, at: &PlacedName, index: &PlacedExpr, value: &PlacedExpr)
        ensures { self.new ≡ ends false
            (value_rules value.now (value_rules index.now (used is_array at.now self.old))) }
    {
        self.used_with_index(at);
        self.value(index);
        self.value(value);
        self.end(false);
    }

    /// Asks what a loop's bound asks.
    #[tactic(auto, unfolding(crate::specs::Rules::bound_rules))]
    fn limit(&mut self, limit: &PlacedBound)
        ensures { self.new ≡ bound_rules limit.now self.old }
    {
        match limit {
            PlacedBound::Lit(_) => {}
            PlacedBound::Name(at) => self.bounded(at),
        }
    }

    /// Asks what a loop's header asks behind its first name, which is visible from there on.
    #[tactic(auto, unfolding(crate::specs::Rules::header_rules))]
    fn header(
        &mut self,
        alloc: Global,
        name: &Text,
        tested: &PlacedName,
        limit: &PlacedBound,
        set: &PlacedName,
        counted: &PlacedName,
    ) -> Result<(), NoMemory>
        ensures { OnOk result (self.new
            ≡ header_rules name.now tested.now limit.now set.now counted.now self.old) }
    {
        self.declare(alloc, name, Local::Loop)?;
        self.again(name, tested);
        self.limit(limit);
        self.again(name, set);
        self.again(name, counted);
        Ok(())
    }

    /// Asks what the value of a return asks.
    #[tactic(auto, unfolding(crate::specs::Rules::optional_rules))]
    fn optional(&mut self, value: &Option<PlacedExpr>)
        ensures { self.new ≡ optional_rules value.now self.old }
    {
        match value {
            None => {}
            Some(value) => self.value(value),
        }
    }

    /// Asks that a void function gives no value, and that every other one does.
    fn returned(&mut self, line: u64, value: &Option<PlacedExpr>)
        ensures { self.new ≡ return_rules line value.now self.old }
    {
        let met = value.is_some() != self.is_void();
        self.demand(line, CRule::Return, met);
        self.optional(value);
        self.end(true);
    }

    /// Asks what a declaration asks. Its local is visible behind it.
    fn local(
        &mut self,
        alloc: Global,
        constant: bool,
        name: &PlacedName,
        right: &PlacedRight,
    ) -> Result<(), NoMemory>
        ensures { OnOk result (self.new ≡ ends false (declare name.now.name
            (if constant then kind.Constant else kind.Plain)
            (right_rules right.now (fresh name.now self.old)))) }
    {
        self.fresh(name);
        self.right(right);
        let kind = if constant {
            Local::Constant
        } else {
            Local::Plain
        };
        self.declare(alloc, &name.name, kind)?;
        self.end(false);
        Ok(())
    }

    /// Asks what a loop asks in its header, of which the name is visible from there on. Answers how many
    /// locals were visible before it.
    fn enter_loop(
        &mut self,
        alloc: Global,
        name: &PlacedName,
        tested: &PlacedName,
        limit: &PlacedBound,
        set: &PlacedName,
        counted: &PlacedName,
    ) -> Result<usize, NoMemory>
        ensures before { IfOk result (λ count. count ≡ length (fresh name.now self.old).locals) }
        ensures asks { OnOk result (self.new ≡ header_rules name.now.name tested.now limit.now
            set.now counted.now (fresh name.now self.old)) }
    {
        self.fresh(name);
        let count = self.locals();
        self.header(alloc, &name.name, tested, limit, set, counted)?;
        Ok(count)
    }

    /// Asks what a statement asks.
    #[cycle(statement)]
    #[tactic(auto, unfolding(crate::specs::Rules::stmt_rules, crate::specs::Rules::block_rules, crate::specs::Rules::maybe))]
    fn statement(&mut self, alloc: Global, statement: &PlacedStmt) -> Result<(), NoMemory>
        ensures { OnOk result (self.new ≡ stmt_rules statement.now self.old) }
    {
        match statement {
            PlacedStmt::Local {
                constant,
                name,
                right,
            } => self.local(alloc, *constant, name, right)?,
            PlacedStmt::Assign(at, right) => self.assignment(at, right),
            PlacedStmt::Store(at, index, value) => self.store(at, index, value),
            PlacedStmt::Call(at, arguments) => self.call(at, arguments),
            PlacedStmt::If(condition, block, None) => {
                self.condition(condition);
                self.block(alloc, block)?;
                self.end(false);
            }
            PlacedStmt::If(condition, block, Some(otherwise)) => {
                self.condition(condition);
                self.block(alloc, block)?;
                self.block(alloc, otherwise)?;
                self.end(false);
            }
            PlacedStmt::For {
                name,
                tested,
                bound,
                set,
                counted,
                body,
            } => {
                let count = self.enter_loop(alloc, name, tested, bound, set, counted)?;
                self.block(alloc, body)?;
                self.keep_locals(count);
                self.end(false);
            }
            PlacedStmt::Return(line, value) => self.returned(*line, value),
        }
        Ok(())
    }

    /// Asks what a block asks. What it declares is visible in it alone.
    #[cycle(statement)]
    #[tactic(auto, unfolding(crate::specs::Rules::stmt_rules, crate::specs::Rules::block_rules))]
    pub(crate) fn block(&mut self, alloc: Global, block: &PlacedBlock) -> Result<(), NoMemory>
        ensures { OnOk result (self.new ≡ block_rules block.now self.old) }
    {
        let count = self.locals();
        self.statements(alloc, block.stmts.as_slice())?;
        self.keep_locals(count);
        Ok(())
    }

    /// Asks what statements ask, one after the other.
    #[cycle(statement)]
    fn statements(&mut self, alloc: Global, statements: &[PlacedStmt]) -> Result<(), NoMemory>
        ensures { OnOk result (self.new ≡ steps (map stmt_rules statements.now) self.old) }
    {
        for statement in statements {
            self.statement(alloc, statement)?;
        }
        Ok(())
    }
}
