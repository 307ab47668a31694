//! Comparing the engine with the slow evaluator over what a seed makes.

ghost use Rattle.std.specs.Prelude.{◌≡◌};

use crate::engines;
use crate::stopped::Stopped;
use nf_core::Steps;
use std::alloc::Global;
use std::marker::Brand;
use std::sync::ledger::{Blank, Ledger};

/// Whether the engine agrees with the slow evaluator over the made specification and the made events of a seed.
pub fn agrees(alloc: Global, seed: u32) -> Result<bool, Stopped> {
    agrees_counted::<Brand>(alloc, seed, Blank::new(1))
}

// The same, with the ledger of the counter.
fn agrees_counted<L: Ledger>(alloc: Global, seed: u32, blank: Blank) -> Result<bool, Stopped>
    requires name { blank.name ≡ L.name }
    requires parts { blank.parts ≡ L.parts }
    requires one { L.parts ≡ 1 }
{
    let mut steps: Steps<L> = Steps::new(blank);
    engines::agrees(alloc, seed, &mut steps)
}
