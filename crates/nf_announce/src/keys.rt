//! The keys of a row.

ghost use Rattle.std.specs.Prelude.{◌≡◌, ◌<◌, ◌^◌, ℕ, List, length, slice_get, Some};
ghost use Rattle.nf_core.specs.Plan.{keys_of};

use nf_core::{Plan, TextList};

/// Keys by place, of which contracts see the list of their texts.
pub(crate) trait Keys {
    ghost keys: { Self → List (List ℕ) };

    /// How many keys there are.
    fn count(&self) -> usize
        ensures { result ≡ length (keys self.now) };

    /// The key at a place, counted from 0.
    fn at(&self, place: usize) -> &str
        requires { place < length (keys self.now) }
        ensures { slice_get (keys self.now) place ≡ Some result.now };
}

/// The keys of a name of a plan, and how many there are.
#[derive(Debug, Clone, Copy)]
pub(crate) struct PlanKeys<'a> {
    plan: &'a Plan,
    name: u32,
    count: u32,
    ghost within: { name < length plan.now.names },
    ghost few: { count < 2 ^ 32 },
    ghost counted: { count ≡ length (keys_of plan.now name) },
}

impl<'a> PlanKeys<'a> {
    /// The keys of a name.
    pub(crate) fn of(plan: &'a Plan, name: u32) -> PlanKeys<'a>
        requires { name < length plan.now.names }
        ensures plan { result.plan.now ≡ plan.now }
        ensures name { result.name ≡ name }
    {
        PlanKeys {
            plan,
            name,
            count: plan.keys(name),
        }
    }
}

impl<'a> Keys for PlanKeys<'a> {
    ghost use Rattle.nf_core.specs.Plan.{keys_of};

    ghost keys = { λ k. keys_of k.plan.now k.name };

    fn count(&self) -> usize {
        self.count as usize
    }

    fn at(&self, place: usize) -> &str {
        self.plan.key(self.name, place as u32)
    }
}

impl Keys for TextList {
    ghost keys = { λ list. list };

    fn count(&self) -> usize {
        self.len()
    }

    fn at(&self, place: usize) -> &str {
        self.as_slice()[place].as_str()
    }
}
