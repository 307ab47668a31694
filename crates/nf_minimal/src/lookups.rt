//! Which stored intervals lie strictly inside another one, or strictly around it.

ghost use Rattle.std.specs.Prelude.{◌≡◌, IfOk};
ghost use Rattle.nf_minimal.specs.inner.Barred.{is_barred, IsOneBarred};

use nf_core::{Interval, NoMemory, TryCopy};
use nf_index::{Rel, Store, Which};
use std::alloc::Global;

/// Whether a stored interval bars another one: it lies strictly inside it, and not all are held. Takes
/// no memory.
pub fn is_barred(full: bool, store: &Store, interval: &Interval) -> bool
    ensures { result ≡ is_barred full store.now interval.now }
{
    if full {
        return false;
    }
    let mut inner = store.matching_with(Rel::Inside, Which::First, interval);
    inner.next().is_some()
}

/// A copy of a stored interval that another one bars: it lies strictly around it, and not all are held.
/// None where there is none. Fails where memory is wanted.
pub fn first_barred(
    full: bool,
    alloc: Global,
    store: &Store,
    interval: &Interval,
) -> Result<Option<Interval>, NoMemory>
    ensures { IfOk result (IsOneBarred full interval.now store.now) }
{
    if full {
        return Ok(None);
    }
    let mut outer = store.matching_with(Rel::Inside, Which::Second, interval);
    match outer.next() {
        Some(first) => Ok(Some(first.copy(alloc)?)),
        None => Ok(None),
    }
}
