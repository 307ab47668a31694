//! Which stored intervals a rule with two atoms looks at.

ghost use Rattle.std.specs.Prelude.{◌≡◌};
ghost use Rattle.nf_core.specs.Intervals as interval;
ghost use Rattle.nf_index.specs.Matching.{stands};
ghost use Rattle.nf_pairs.specs.Partners as spec;
ghost use Rattle.nf_pairs.specs.Partners.{ArePartners, HasTwoAtoms};

use nf_core::{Interval, Link, PlanRule};
use nf_index::{Matching, Rel, Store, Which};
use nf_relations::{blocks, holds};

/// The stored intervals that are left to look at.
pub type Partners<'a> = Matching<'a>;

/// The relation of a link.
fn relation(link: Link) -> Rel
    requires { HasTwoAtoms link }
    ensures { (i j : interval.Interval)
        → stands result i.start i.stop j.start j.stop ≡ spec.is_related link i j }
{
    match link {
        Link::Pair(op, _) => Rel::Pair(op),
        Link::Unless(xop, _) => Rel::Unless(xop),
        Link::One => unreachable!(),
    }
}

/// The stored intervals with which a rule with two atoms looks at an interval, where `which` of the
/// two members is the stored one (`ArePartners` of specs/Partners): each is related by the rule's
/// operator, and none is left out with which `where` is met. Today these are all that are related.
/// Takes no memory.
pub fn partners<'a>(rule: &PlanRule, which: Which, one: &Interval, store: &'a Store) -> Partners<'a>
    requires { HasTwoAtoms rule.now.link }
    ensures { ArePartners rule.now which one.now store.now result }
{
    store.matching_with(relation(rule.link), which, one)
}

/// Whether a pair stands in the relation of a link (`is_related` of specs/Partners). Takes no memory.
pub fn is_related(link: Link, first: &Interval, second: &Interval) -> bool
    ensures { result ≡ spec.is_related link first.now second.now }
{
    match link {
        Link::One => false,
        Link::Pair(op, _) => holds(op, first.start, first.stop, second.start, second.stop),
        Link::Unless(xop, _) => blocks(xop, first.start, first.stop, second.start, second.stop),
    }
}
