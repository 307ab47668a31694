//! What an evaluator of a plan's rules offers.

ghost use Rattle.std.specs.Prelude.{◌≡◌, ◌+◌, ◌<◌, ◌≤◌, Bool, IsTrue, false, length, IfOk};
ghost use Rattle.nf_core.specs.Plan.{keys_of, is_wide};
ghost use Rattle.nf_core.specs.Sets.{IsSet};
ghost use Rattle.nf_model.specs.Changes.{Content, IsContent, with_input, change, pool_of};
ghost use Rattle.nf_model.specs.Work.{work_between};

use nf_core::{Change, Held, Interval, NoMemory, Steps};
use std::alloc::Global;
use std::sync::ledger::Ledger;

/// An evaluator of a plan's rules over the intervals that were entered so far.
///
/// Contracts see its content: a plan, whether minimality is off, and for each name its inputs
/// (`Content` of specs/Changes). That is always a content of a valid plan (`IsContent`): each call says
/// so. Contracts see too whether it is thrifty: a thrifty one evaluates at a step no more than the work
/// of that step (`work` of specs/Work), so what a step leaves as it was costs nothing anew.
pub trait Inferer: Sized {
    ghost content: { Self → Content };

    ghost is_thrifty: { Self → Bool };

    /// Enters an interval under the name with a number, once, and answers what the held intervals
    /// of the heads lost and gained. A wide name takes none, since its intervals come from rules
    /// alone. Where memory is wanted nothing is left: the evaluator is gone.
    /// A thrifty evaluator stays one, and it raises the counter by at most the work from the inputs
    /// before to those after, in evaluated expressions, also where memory is wanted.
    fn step<L: Ledger>(
        self,
        alloc: Global,
        name: u32,
        interval: Interval,
        steps: &mut Steps<L>,
    ) -> Result<(Self, Change), NoMemory>
        requires name { name < length (content self).plan.names }
        requires narrow { is_wide (content self).plan name ≡ false }
        requires row { length interval.row ≡ length (keys_of (content self).plan name) }
        ensures valid { IsContent (content self) }
        ensures content { IfOk result (λ r. content r.0 ≡ with_input name interval (content self)) }
        ensures change { IfOk result (λ r. r.1
            ≡ change (content self) (with_input name interval (content self))) }
        ensures thrifty { IfOk result (λ r. is_thrifty r.0 ≡ is_thrifty self) }
        ensures work { IsTrue (is_thrifty self) → steps.new
            ≤ steps.old + work_between (content self) (with_input name interval (content self)) };

    /// The held intervals of the name with a number, as borrows, ascending, each once (`pool` of
    /// specs/Pools). Takes no memory.
    fn held(&self, name: u32) -> Held<'_>
        requires { name < length (content self.now).plan.names }
        ensures valid { IsContent (content self.now) }
        ensures pool { result ≡ pool_of (content self.now) name }
        ensures sorted { IsSet result };
}
