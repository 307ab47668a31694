//! What each rule of names asks at a name (specs/Book.antt).

ghost use Rattle.std.specs.Prelude.{◌≡◌, is_some};
ghost use Rattle.nf_cast.specs.declared.rules.CRule.TheVariants as rule;
ghost use Rattle.nf_cast.specs.Book.{look, demand, is_scalar, is_array, is_func, fresh, used, assigned, bounded, again, counted, valued, deepen};

use crate::book::Book;
use crate::placed::PlacedName;
use crate::rules::{CRule, Seen};
use crate::seen::{gives_value, is_array, is_assignable, is_constant, is_func, is_scalar, takes};
use nf_core::Text;

impl Book {
    /// Asks that a name that is declared isn't visible yet.
    pub(crate) fn fresh(&mut self, at: &PlacedName)
        ensures { self.new ≡ fresh at.now self.old }
    {
        let met = self.look(&at.name).is_none();
        self.demand(at.line, CRule::Twice, met);
    }

    /// Asks that a name that is used is visible, and then that it is used as what it is.
    fn known_as(&mut self, line: u64, seen: Option<Seen>, met: bool)
        ensures { self.new
            ≡ demand line rule.Form met (demand line rule.Unknown (is_some seen) self.old) }
    {
        self.demand(line, CRule::Unknown, seen.is_some());
        self.demand(line, CRule::Form, met);
    }

    /// Asks that a name may stand alone.
    pub(crate) fn used_alone(&mut self, at: &PlacedName)
        ensures { self.new ≡ used is_scalar at.now self.old }
    {
        let seen = self.look(&at.name);
        self.known_as(at.line, seen, is_scalar(seen));
    }

    /// Asks that a name may have an index.
    pub(crate) fn used_with_index(&mut self, at: &PlacedName)
        ensures { self.new ≡ used is_array at.now self.old }
    {
        let seen = self.look(&at.name);
        self.known_as(at.line, seen, is_array(seen));
    }

    /// Asks that a name that is assigned may be.
    #[tactic(auto, using(crate::proofs::BookLemmas::look_laws))]
    pub(crate) fn assigned(&mut self, at: &PlacedName)
        ensures { self.new ≡ assigned at.now self.old }
    {
        let seen = self.look(&at.name);
        self.known_as(at.line, seen, is_scalar(seen));
        self.demand(at.line, CRule::Assign, is_assignable(seen));
    }

    /// Asks that a loop's bound is a constant.
    #[tactic(auto, using(crate::proofs::BookLemmas::look_laws))]
    pub(crate) fn bounded(&mut self, at: &PlacedName)
        ensures { self.new ≡ bounded at.now self.old }
    {
        let seen = self.look(&at.name);
        self.known_as(at.line, seen, is_scalar(seen));
        self.demand(at.line, CRule::Bound, is_constant(seen));
    }

    /// Asks that a name of a loop's header is the loop's.
    pub(crate) fn again(&mut self, name: &Text, at: &PlacedName)
        ensures { self.new ≡ again name.now at.now self.old }
    {
        self.used_alone(at);
        self.demand(at.line, CRule::Loop, name == &at.name);
    }

    /// Asks that a name that is called is a function of so many parameters. Answers what it stands
    /// for.
    #[tactic(auto, using(crate::proofs::BookLemmas::look_laws))]
    fn counted(&mut self, at: &PlacedName, count: u64) -> Option<Seen>
        ensures asks { self.new ≡ counted count at.now (used is_func at.now self.old) }
        ensures seen { result ≡ look self.old at.now.name }
    {
        let seen = self.look(&at.name);
        self.known_as(at.line, seen, is_func(seen));
        self.demand(at.line, CRule::Count, takes(count, seen));
        seen
    }

    /// Asks what a call asks at its name.
    #[tactic(auto, using(crate::proofs::BookLemmas::look_laws))]
    pub(crate) fn called(&mut self, at: &PlacedName, count: u64)
        ensures { self.new ≡ deepen at.now (counted count at.now (used is_func at.now self.old)) }
    {
        let seen = self.counted(at, count);
        self.deepen(at.line, seen);
    }

    /// Asks what a call whose value is used asks at its name.
    #[tactic(auto, using(crate::proofs::BookLemmas::look_laws))]
    pub(crate) fn called_for_value(&mut self, at: &PlacedName, count: u64)
        ensures { self.new
            ≡ deepen at.now (valued at.now (counted count at.now (used is_func at.now self.old))) }
    {
        let seen = self.counted(at, count);
        self.demand(at.line, CRule::Void, gives_value(seen));
        self.deepen(at.line, seen);
    }
}
