//! Reading an announcement line back.

ghost use Rattle.std.specs.Prelude.{◌≡◌, ℕ, Ok, None, IfOk, IfSome};
ghost use Rattle.nf_core.specs.Plan.{IsPlan};
ghost use Rattle.nf_announce.specs.Reading.{Announces};
ghost use Rattle.nf_announce.specs.inner.LineParts.{IsHeadNamed};
ghost use Rattle.nf_announce.specs.declared.read_lines.Signed as signed;

use crate::keys::PlanKeys;
use crate::line_parts::read_parts;
use crate::row_texts::{Pairs, read_row};
use nf_core::{Interval, Named, NoMemory, Plan};
use std::alloc::Global;

/// What a line announces: an interval of a head, and its sign.
#[derive(Debug, Drop)]
pub struct Signed {
    /// Whether it is added; else it is withdrawn.
    pub added: bool,
    pub item: Named,
}

/// What a line, given without its LF, announces under a plan (`Announces` of specs/Reading). None exactly
/// where it announces nothing: it isn't what is printed of an interval of a head with keys of the head's
/// keys, in order. NoMemory comes where memory is wanted.
pub fn read_line(alloc: Global, plan: &Plan, line: &[u8]) -> Result<Option<Signed>, NoMemory>
    ensures some { IfOk result (λ read. IfSome read (Announces plan.now line.now)) }
    ensures none { result ≡ Ok None → (other : signed.Signed)
        → ¬ Announces plan.now line.now other }
{
    // A plan without rules has no heads.
    if plan.rules() == 0 {
        return Ok(None);
    }
    let Some(parts) = read_parts(line) else {
        return Ok(None);
    };
    let Some(name) = find_head(plan, parts.name) else {
        return Ok(None);
    };
    let Some(pairs) = Pairs::of(parts.keys, parts.values) else {
        return Ok(None);
    };
    let Some(row) = read_row(alloc, &PlanKeys::of(plan, name), pairs)? else {
        return Ok(None);
    };
    let interval = Interval {
        start: parts.start,
        stop: parts.stop,
        row,
    };
    Ok(Some(Signed {
        added: parts.added,
        item: Named { name, interval },
    }))
}

/// The number of the head with a text as its name. None exactly where no head has this name.
fn find_head(plan: &Plan, text: &str) -> Option<u32>
    requires { IsPlan plan.now }
    ensures some { IfSome result (IsHeadNamed plan.now text.now) }
    ensures none { result ≡ None → (n : ℕ) → ¬ IsHeadNamed plan.now text.now n }
{
    let name = plan.find(text)?;
    if plan.is_head(name) { Some(name) } else { None }
}
