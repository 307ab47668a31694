//! A part of a source, by the places of its ends.

ghost use Rattle.std.specs.Prelude.{◌≡◌, ◌≤◌, length, slice_range};

/// A part of a list of bytes: from the place `start` up to the place `stop`, which is not in it.
/// Places are counted from 0.
#[derive(Debug, Clone, Copy, PartialEq, Eq)]
pub struct Span {
    pub start: usize,
    pub stop: usize,
}

/// The bytes of `source` in the span, which has to lie in it. Nothing is copied.
pub fn slice(source: &[u8], span: Span) -> &[u8]
    requires in_order { span.start ≤ span.stop }
    requires within { span.stop ≤ length source.now }
    ensures { result.now ≡ slice_range source.now span.start span.stop }
{
    &source[span.start..span.stop]
}
