//! What names lost and gained so far in a step.

ghost use Rattle.std.specs.Prelude.{◌≡◌, ℕ, ◌<◌, [], ◌++◌, ◌==◌, ◌||◌, true, cond, length, OnOk, IfOk, if◌then◌else◌};
ghost use Rattle.std.specs.Map.{lookup};
ghost use Rattle.std.specs.Option.{option_copied};
ghost use Rattle.nf_engine.specs.inner.Deltas.{delta_at, is_changed, change_of_heads};
ghost use Rattle.nf_core.specs.Plan.{is_head};
ghost use Rattle.nf_model.specs.Changes.{named};

use nf_core::{Change, Delta, IntervalList, Named, NamedList, NoMemory, Plan};
use std::alloc::Global;
use std::collections::BTreeMap;
use std::marker::Model;

/// Names with what they lost and gained. Contracts see the list of both, ascending by the name's
/// number, each name once.
#[derive(Drop)]
pub struct Deltas {
    by_name: BTreeMap<u32, Delta>,
}

impl Model for Deltas {
    ghost use Rattle.nf_engine.specs.inner.Deltas.{NamedDeltas};

    ghost Value = { NamedDeltas };

    ghost view = { λ d. d.by_name.entries };
}

impl Deltas {
    /// No names. Takes no memory.
    pub fn new(alloc: Global) -> Deltas
        ensures { result ≡ [] }
    {
        Deltas {
            by_name: BTreeMap::new(alloc),
        }
    }

    /// What a name lost and gained, where it has a delta.
    pub fn get(&self, name: u32) -> Option<&Delta>
        ensures { option_copied result ≡ lookup (λ m. name == m) self.now }
    {
        self.by_name.get(&name)
    }

    /// Gives a name a delta. Fails where memory is wanted.
    pub fn record(&mut self, name: u32, delta: Delta) -> Result<(), NoMemory>
        ensures deltas { OnOk result ((n : ℕ)
            → delta_at self.new n ≡ cond (n == name) delta (delta_at self.old n)) }
        ensures names { OnOk result ((n : ℕ)
            → is_changed self.new n ≡ (n == name || is_changed self.old n)) }
    {
        self.by_name.insert(name, delta)?;
        Ok(())
    }

    /// What the heads lost and gained, by number, and nothing of other names. The intervals are
    /// moved. Fails where memory is wanted.
    pub fn into_change(self, alloc: Global, plan: &Plan) -> Result<Change, NoMemory>
        requires { (n : ℕ) → is_changed self n ≡ true → n < length plan.now.names }
        ensures { IfOk result (λ change. change ≡ change_of_heads plan.now (delta_at self)) }
    {
        let mut change = Change {
            gone: NamedList::new(alloc),
            come: NamedList::new(alloc),
        };
        for (name, delta) in self.by_name {
            push_delta(plan, name, delta, &mut change)?;
        }
        Ok(change)
    }
}

/// Puts intervals of a name at the end of a list.
fn push_named(name: u32, members: IntervalList, out: &mut NamedList) -> Result<(), NoMemory>
    ensures { OnOk result (out.new ≡ out.old ++ named name members) }
{
    for interval in members.into_vec() {
        out.push(Named { name, interval })?;
    }
    Ok(())
}

/// Puts what a head lost and gained at the end of a change, and nothing of a name that is no head.
fn push_delta(plan: &Plan, name: u32, delta: Delta, change: &mut Change) -> Result<(), NoMemory>
    requires { name < length plan.now.names }
    ensures gone { OnOk result (change.new.gone ≡ change.old.gone
        ++ (if is_head plan.now name then named name delta.gone else [])) }
    ensures come { OnOk result (change.new.come ≡ change.old.come
        ++ (if is_head plan.now name then named name delta.come else [])) }
{
    if plan.is_head(name) {
        push_named(name, delta.gone, &mut change.gone)?;
        push_named(name, delta.come, &mut change.come)?;
    }
    Ok(())
}
