//! The manifest at the front of a C text.

ghost use Rattle.std.specs.Prelude.{◌≡◌, ◌⊎◌, ◌≤◌, ◌↔◌, ℕ, List, length, drop, Ok, Err, IfOk, IfErr, IsTrue};
ghost use Rattle.nf_cast.specs.declared.manifests.CManifest.{CManifest};
ghost use Rattle.nf_cparse.specs.declared.fault.CFault.TheVariants as fault;
ghost use Rattle.nf_cast.specs.Text.{manifest_text};
ghost use Rattle.nf_cparse.specs.Manifests.{BeginsWith};
ghost use Rattle.nf_cparse.specs.inner.Readings.{IsRefused};
ghost use Rattle.nf_cparse.specs.inner.ManifestParts.{IsVersionAt, AreLinesAt, AreApart};

use crate::distinct::{are_distinct, have_distinct_names};
use crate::fault::CFault;
use crate::manifest_names::names_at;
use crate::manifest_texts::texts_at;
use crate::parts::behind;
use nf_cast::CManifest;
use nf_core::NoMemory;
use std::alloc::Global;

/// The most names of a manifest.
const MOST_NAMES: usize = 4_294_967_295;

/// The version that the first line of a manifest names, and what stands behind the line. Manifest where no
/// such line stands at the front of the bytes.
fn version_at<'a>(bytes: &'a [u8]) -> Result<(u32, &'a [u8]), CFault>
    ensures ok { IfOk result (λ found. IsVersionAt bytes.now found.0 found.1.now) }
    ensures err { IfErr result (IsRefused (IsVersionAt bytes.now)) }
{
    if let Some(rest) = behind(bytes, b"/*nfer 1\n") {
        return Ok((1, rest));
    }
    match behind(bytes, b"/*nfer 2\n") {
        Some(rest) => Ok((2, rest)),
        None => Err(CFault::Manifest),
    }
}

/// The lines of a manifest at the front of the bytes, and what stands behind them. Manifest where no such
/// lines stand there.
fn lines_at<'a>(alloc: Global, bytes: &'a [u8]) -> Result<(CManifest, &'a [u8]), CFault>
    ensures ok { IfOk result (λ found. AreLinesAt bytes.now found.0 found.1.now) }
    ensures err { IfErr result (IsRefused (AreLinesAt bytes.now)) }
{
    let (version, rest) = version_at(bytes)?;
    let (names, rest) = names_at(alloc, rest)?;
    let (texts, rest) = texts_at(alloc, rest)?;
    Ok((
        CManifest {
            version,
            names,
            texts,
        },
        rest,
    ))
}

/// Whether a manifest has fewer than 2^32 names, and its names and its texts are distinct.
fn are_apart(alloc: Global, manifest: &CManifest) -> Result<bool, NoMemory>
    ensures { IfOk result (λ apart. IsTrue apart ↔ AreApart manifest.now) }
{
    if manifest.names.len() > MOST_NAMES {
        return Ok(false);
    }
    if !have_distinct_names(alloc, manifest.names.as_slice())? {
        return Ok(false);
    }
    are_distinct(alloc, manifest.texts.as_slice())
}

/// The manifest with whose text a source begins, and the place behind it, counted from 0. Manifest comes
/// exactly where the source begins with the text of none, and NoMemory where memory is wanted; then
/// nothing is left of the manifest. The rule is `BeginsWith` in specs/Manifests.antt: the text of a
/// manifest is the one that `print_c` of nf_cast gives it, to the byte.
pub(crate) fn read_manifest(alloc: Global, source: &[u8]) -> Result<(CManifest, usize), CFault>
    ensures found { IfOk result (λ found. BeginsWith source.now found.0 (drop found.1 source.now)) }
    ensures within { IfOk result (λ found. found.1 ≤ length source.now) }
    ensures fault { IfErr result (IsRefused (BeginsWith source.now)) }
    ensures exact { (m : CManifest) (rest : List ℕ) → BeginsWith source.now m rest
        → (result ≡ Ok (m, length (manifest_text m))) ⊎ (result ≡ Err fault.NoMemory) }
{
    let (manifest, rest) = lines_at(alloc, source)?;
    if !are_apart(alloc, &manifest)? {
        return Err(CFault::Manifest);
    }
    let place = source.len() - rest.len();
    Ok((manifest, place))
}
