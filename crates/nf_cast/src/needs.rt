//! What a manifest asks of the text of its program.

ghost use Rattle.std.specs.Prelude.{◌≡◌, ◌<◌, ◌^◌, length, if◌then◌else◌};
ghost use Rattle.nf_cast.specs.Program.{heads_of, most_keys, needs_of};

use crate::manifests::{CManifest, CName};
use crate::rules::Needs;

/// The most keys of some names, and 0 of none.
fn most_keys(names: &[CName]) -> u64
    ensures most { result ≡ most_keys names.now }
    ensures small { result < 2 ^ 63 }
{
    let mut most = 0;
    for name in names {
        most = most.max(name.keys.as_slice().len() as u64);
    }
    most
}

/// How many keys a name has where it is a head, and else 0.
fn head_keys(name: &CName) -> u64
    ensures keys { result ≡ (if name.now.is_head then length name.now.keys else 0) }
    ensures small { result < 2 ^ 63 }
{
    if name.is_head {
        name.keys.as_slice().len() as u64
    } else {
        0
    }
}

/// The most keys of the heads of some names, and 0 of none.
fn most_head_keys(names: &[CName]) -> u64
    ensures most { result ≡ most_keys (heads_of names.now) }
    ensures small { result < 2 ^ 63 }
{
    let mut most = 0;
    for name in names {
        most = most.max(head_keys(name));
    }
    most
}

/// What a manifest asks of the text of its program (`needs_of` in specs/Program.antt): `nf_event` has two
/// parameters in version 1 and else three, and each key has two cells in `nf_in` and, where its name is a
/// head, in `nf_out`. Takes no memory.
#[tactic(auto, unfolding(crate::specs::Program::needs_of))]
pub fn needs_of(manifest: &CManifest) -> Needs
    ensures { result ≡ needs_of manifest.now }
{
    let names = manifest.names.as_slice();
    Needs {
        params: if manifest.version == 1 { 2 } else { 3 },
        input: 2 * most_keys(names),
        output: 2 * most_head_keys(names),
    }
}
