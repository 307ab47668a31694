//! Wide names.

ghost use Rattle.std.specs.Prelude.{◌≡◌};
ghost use Rattle.nf_core.specs.Identifiers.{is_wide_name};

/// Whether a name is wide: whether its text begins with `|`, as no identifier and no name of a trace
/// does (`is_wide_name` of specs/Identifiers). It looks at one byte.
#[tactic(auto, unfolding(crate::specs::Identifiers::is_wide_name))]
pub fn is_wide_name(name: &str) -> bool
    ensures { result ≡ is_wide_name name.now }
{
    match name.as_bytes() {
        [first, ..] => *first == b'|',
        [] => false,
    }
}
