//! Cutting a text at marks.

ghost use Rattle.std.specs.Prelude.{◌≡◌, ◌+◌, ◌<◌, ◌==◌, length, count_by};
ghost use Rattle.std.specs.List.{join_with_byte};
ghost use Rattle.nf_text.specs.Fields.{fields_of};

use crate::field_list::Split;

/// The fields of `text` before, between and after the marks, as borrows, in order: one more than the
/// text has marks, so the empty text has one, which is empty. The mark is an ASCII byte. The rule is
/// `fields_of` in specs/Fields.antt.
pub fn split<'a>(text: &'a str, mark: u8) -> Split<'a>
    requires { mark < 128 }
    ensures fields { result ≡ fields_of mark text.now }
    ensures count { length result ≡ count_by (λ b. b == mark) text.now + 1 }
    ensures joined { join_with_byte mark result ≡ text.now }
{
    Split::of(text, mark)
}
