//! Copies of first bytes.
ghost use Rattle.std.specs.Prelude.{◌≡◌, ◌+◌, ◌-◌, ◌≤◌, ◌++◌, length, take, drop, min};

// Copies the first bytes to the first places, and answers how many: the least of `most`, the
// places and the bytes. The other places stay.
pub(crate) fn copy_some(places: &mut [u8], bytes: &[u8], most: usize) -> usize
    ensures count { result ≡ min most (min (length places.old) (length bytes.now)) }
    ensures bytes { take result places.new ≡ take result bytes.now }
    ensures others { drop result places.new ≡ drop result places.old }
{
    let count = most.min(places.len().min(bytes.len()));
    places[..count].copy_from_slice(&bytes[..count]);
    count
}

// Copies the first bytes to the places from this one on, as many as fit, and answers how many.
pub(crate) fn copy_after(places: &mut [u8], used: usize, bytes: &[u8]) -> usize
    requires { used ≤ length places.old }
    ensures count { result ≡ min (length places.old - used) (length bytes.now) }
    ensures bytes { take (used + result) places.new
        ≡ take used places.old ++ take result bytes.now }
{
    copy_some(&mut places[used..], bytes, bytes.len())
}
