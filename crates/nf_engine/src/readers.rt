//! Which rules read a name.

ghost use Rattle.std.specs.Prelude.{◌≡◌, ◌<◌, length, All, OnOk};
ghost use Rattle.nf_core.specs.Plan.{IsPlan};
ghost use Rattle.nf_engine.specs.inner.Readers.{HasQueued, IsQueued};

use crate::queues::{Due, Queue};
use nf_core::{NoMemory, Plan};

/// Puts a rule into the queue.
fn queue_rule(plan: &Plan, number: u32, queue: &mut Queue) -> Result<(), NoMemory>
    requires valid { IsPlan plan.now }
    requires number { number < length plan.now.rules }
    ensures { OnOk result (IsQueued plan.now number queue.old queue.new) }
{
    let head = plan.rule(number).head;
    queue.add(Due {
        level: plan.level(head),
        head,
        rule: number,
    })
}

/// Puts some rules into the queue.
pub fn queue_readers(plan: &Plan, numbers: &[u32], queue: &mut Queue) -> Result<(), NoMemory>
    requires valid { IsPlan plan.now }
    requires numbers { All (λ k. k < length plan.now.rules) numbers.now }
    ensures { OnOk result (HasQueued plan.now numbers.now queue.old queue.new) }
{
    for number in numbers {
        queue_rule(plan, *number, queue)?;
    }
    Ok(())
}
