//! The lists of a delta.

ghost use Rattle.std.specs.Prelude.{◌≡◌};
ghost use Rattle.nf_core.specs.Sets.{IsSet, has};

use nf_core::Interval;

/// Whether a sorted list of a delta has an interval, which is searched for by halves. Takes no
/// memory.
pub fn has_sorted(list: &[Interval], interval: &Interval) -> bool
    requires { IsSet list.now }
    ensures { result ≡ has list.now interval.now }
{
    list.binary_search(interval).is_ok()
}
