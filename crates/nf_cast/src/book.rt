//! What is known at a place of a C text, while its rules are asked.

ghost use Rattle.std.specs.Prelude.{◌≡◌, length, take, [], IfOk, OnOk};
ghost use Rattle.std.specs.Map.{lookup};
ghost use Rattle.nf_core.specs.Texts.{text_eq};
ghost use Rattle.nf_cast.specs.Book.{look, blame, demand, deepened, take_room, declare, publish, ends, left, opening};
ghost use Rattle.nf_cast.specs.Rules.{enter, leave};

use crate::limits::{MOST_CALLS, MOST_CELLS};
use crate::rules::{Breach, CRule, Global, Local, Seen};
use indexmap::IndexMap;
use nf_core::{NoMemory, Text, TryCopy};
use std::alloc::Global as Memory;
use std::marker::Model;

/// What is known at a place of a C text (`Book` in specs/Book.antt).
#[derive(Drop)]
pub(crate) struct Book {
    globals: IndexMap<Text, Global>,
    locals: IndexMap<Text, Local>,
    room: u64,
    depth: u64,
    void: bool,
    ended: bool,
    first: Option<Breach>,
}

impl Model for Book {
    ghost use Rattle.nf_cast.specs.Book as spec;

    ghost Value = { spec.Book };

    ghost view = { λ b. record {
      globals = b.globals.entries;
      locals = b.locals.entries;
      room = b.room;
      depth = b.depth;
      void = b.void;
      ended = b.ended;
      first = b.first;
    } };
}

impl Book {
    /// What is known before the first object or function: `nf_emit`.
    pub(crate) fn new(memory: Memory) -> Result<Book, NoMemory>
        ensures { IfOk result (λ b. b ≡ opening) }
    {
        let emission = Global::Func {
            params: 4,
            void: true,
            depth: 0,
        };
        let mut globals = IndexMap::new(memory);
        globals.insert(Text::new(memory, "nf_emit")?, emission)?;
        Ok(Book {
            globals,
            locals: IndexMap::new(memory),
            room: MOST_CELLS,
            depth: 0,
            void: false,
            ended: false,
            first: None,
        })
    }

    /// The first breach so far.
    pub(crate) fn first(&self) -> Option<Breach>
        ensures { result ≡ self.now.first }
    {
        self.first
    }

    /// A rule is broken at a line: the first breach stays.
    fn blame(&mut self, line: u64, rule: CRule)
        ensures { self.new ≡ blame line rule self.old }
    {
        if self.first.is_none() {
            self.first = Some(Breach { line, rule });
        }
    }

    /// A rule is broken at a line, unless what it asks is met.
    pub(crate) fn demand(&mut self, line: u64, rule: CRule, met: bool)
        ensures { self.new ≡ demand line rule met self.old }
    {
        if !met {
            self.blame(line, rule);
        }
    }

    /// What a name stands for, where it is visible.
    pub(crate) fn look(&self, name: &Text) -> Option<Seen>
        ensures { result ≡ look self.now name.now }
    {
        match self.locals.get(name) {
            Some(found) => Some(Seen::Local(*found)),
            None => match self.globals.get(name) {
                Some(found) => Some(Seen::Global(*found)),
                None => None,
            },
        }
    }

    /// What a name stands for outside functions, where it is visible there.
    pub(crate) fn global(&self, name: &Text) -> Option<Global>
        ensures { result ≡ lookup (text_eq name.now) self.now.globals }
    {
        self.globals.get(name).copied()
    }

    /// Whether the function there is void.
    pub(crate) fn is_void(&self) -> bool
        ensures { result ≡ self.now.void }
    {
        self.void
    }

    /// Whether the last statement so far is a return.
    pub(crate) fn is_ended(&self) -> bool
        ensures { result ≡ self.now.ended }
    {
        self.ended
    }

    /// How many locals are visible.
    pub(crate) fn locals(&self) -> usize
        ensures { result ≡ length self.now.locals }
    {
        self.locals.len()
    }

    /// Keeps the first so many locals visible, and no others.
    pub(crate) fn keep_locals(&mut self, count: usize)
        ensures { self.new ≡ left count self.old }
    {
        self.locals.truncate(count);
    }

    /// Makes a local visible. Where memory is wanted it isn't.
    pub(crate) fn declare(
        &mut self,
        memory: Memory,
        name: &Text,
        local: Local,
    ) -> Result<(), NoMemory>
        ensures { OnOk result (self.new ≡ declare name.now local self.old) }
    {
        self.locals.insert(name.copy(memory)?, local)?;
        Ok(())
    }

    /// Makes an object or a function visible. Where memory is wanted it isn't.
    pub(crate) fn publish(
        &mut self,
        memory: Memory,
        name: &Text,
        global: Global,
    ) -> Result<(), NoMemory>
        ensures { OnOk result (self.new ≡ publish name.now global self.old) }
    {
        self.globals.insert(name.copy(memory)?, global)?;
        Ok(())
    }

    /// Notes whether the last statement so far is a return.
    pub(crate) fn end(&mut self, is_return: bool)
        ensures { self.new ≡ ends is_return self.old }
    {
        self.ended = is_return;
    }

    /// Makes the function there deeper than the function that it calls. The rule is broken where that is
    /// too deep.
    #[tactic(auto, unfolding(crate::specs::Book::deepened))]
    pub(crate) fn deepen(&mut self, line: u64, seen: Option<Seen>)
        ensures { self.new ≡ deepened line seen self.old }
    {
        if let Some(Seen::Global(Global::Func { depth, .. })) = seen {
            if depth < MOST_CALLS {
                self.depth = self.depth.max(depth + 1);
            } else {
                self.blame(line, CRule::Calls);
            }
        }
    }

    /// Takes the cells of an object from those that there may still be. The rule is broken where it has
    /// none, or too many.
    #[tactic(auto, unfolding(crate::specs::Book::take_room))]
    pub(crate) fn take_room(&mut self, line: u64, count: u64)
        ensures { self.new ≡ take_room line count self.old }
    {
        if 0 < count && count <= self.room {
            self.room -= count;
        } else {
            self.blame(line, CRule::Size);
        }
    }

    /// A function begins: it has no locals, and calls no function yet.
    pub(crate) fn enter(&mut self, void: bool)
        ensures { self.new ≡ enter void self.old }
    {
        self.locals.truncate(0);
        self.depth = 1;
        self.void = void;
        self.ended = false;
    }

    /// A function of so many parameters ends: it is visible from here on. Where memory is wanted it isn't.
    pub(crate) fn leave(&mut self, memory: Memory, name: &Text, params: u64) -> Result<(), NoMemory>
        ensures { OnOk result (self.new ≡ leave name.now params self.old) }
    {
        self.locals.truncate(0);
        let function = Global::Func {
            params,
            void: self.void,
            depth: self.depth,
        };
        self.publish(memory, name, function)
    }
}
