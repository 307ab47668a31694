//! Whether texts are distinct.

ghost use Rattle.std.specs.Prelude.{◌≡◌, ◌↔◌, map, not, IfOk, OnOk, IsTrue};
ghost use Rattle.std.specs.List.{list_any, IsDistinct};
ghost use Rattle.indexmap.specs.IndexSet.{insert_key};
ghost use Rattle.nf_core.specs.Texts.{text_eq};
ghost use Rattle.nf_cast.specs.declared.manifests.CName.{CName};
ghost use Rattle.nf_cparse.specs.inner.Distinct.{texts_in};

use indexmap::IndexSet;
use nf_cast::CName;
use nf_core::{NoMemory, Text};
use std::alloc::Global;

/// Puts a text in, and says whether it wasn't there.
#[tactic(auto, using(crate::proofs::DistinctLemmas::texts_in_more, crate::proofs::DistinctLemmas::not_in_texts))]
fn add<'a>(seen: &mut IndexSet<&'a str>, text: &'a str) -> Result<bool, NoMemory>
    ensures texts { OnOk result (texts_in seen.new ≡ insert_key text_eq (texts_in seen.old) text.now) }
    ensures added { IfOk result (λ added. added ≡ not (list_any (text_eq text.now) (texts_in seen.old))) }
{
    Ok(seen.insert(text)?)
}

/// Whether no text stands twice.
pub(crate) fn are_distinct(alloc: Global, texts: &[Text]) -> Result<bool, NoMemory>
    ensures { IfOk result (λ distinct. IsTrue distinct ↔ IsDistinct text_eq texts.now) }
{
    let mut seen = IndexSet::new(alloc);
    for text in texts {
        if !add(&mut seen, text.as_str())? {
            return Ok(false);
        }
    }
    Ok(true)
}

/// Whether no two names have one text.
pub(crate) fn have_distinct_names(alloc: Global, names: &[CName]) -> Result<bool, NoMemory>
    ensures { IfOk result (λ distinct. IsTrue distinct
        ↔ IsDistinct text_eq (map (λ (n : CName). n.name) names.now)) }
{
    let mut seen = IndexSet::new(alloc);
    for name in names {
        if !add(&mut seen, name.name.as_str())? {
            return Ok(false);
        }
    }
    Ok(true)
}
