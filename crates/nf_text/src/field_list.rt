//! The fields of a text between marks, one by one.

ghost use Rattle.std.specs.Prelude.{◌≡◌, ◌<◌, ◌∷◌};
ghost use Rattle.std.specs.Iterator.{YieldsFirstRef, item_count};
ghost use Rattle.nf_text.specs.Fields.{fields_of};
ghost use Rattle.nf_text.specs.inner.Splitting.{fields_left};

use std::marker::Model;

/// An iterator of the fields that are left of a text, from the first on. Contracts see it as the list
/// of these fields (`fields_of` in specs/Fields.antt). Each field is lent by the text.
#[derive(Debug, Drop)]
pub struct Split<'a> {
    rest: Option<&'a str>,
    mark: u8,
}

impl<'a> Model for Split<'a> {
    ghost use Rattle.std.specs.Prelude.{List, ℕ, ◌<◌};
    ghost use Rattle.nf_text.specs.inner.Splitting.{fields_left};

    ghost Value = { List (List ℕ) };

    ghost view = { λ s. fields_left s.mark s.rest };

    ghost invariant = { λ s. s.mark < 128 };
}

impl<'a> Split<'a> {
    /// The fields of `text` between the marks. The mark is ASCII.
    pub(crate) fn of(text: &'a str, mark: u8) -> Split<'a>
        requires { mark < 128 }
        ensures { result ≡ fields_of mark text.now }
    {
        Split {
            rest: Some(text),
            mark,
        }
    }
}

impl<'a> Iterator for Split<'a> {
    type Item = &'a str;

    ghost next_gives = { YieldsFirstRef (λ s. s) };

    ghost remaining = { item_count (λ s. s) };

    fn next(&mut self) -> Option<&'a str> {
        let text = self.rest?;
        let (field, rest) = cut(text, self.mark);
        self.rest = rest;
        Some(field)
    }
}

/// The first field of the text, and the text after its mark, if it has a mark.
fn cut<'a>(text: &'a str, mark: u8) -> (&'a str, Option<&'a str>)
    requires { mark < 128 }
    ensures { fields_of mark text.now ≡ result.0.now ∷ fields_left mark result.1 }
{
    match text.split_once(char::from(mark)) {
        Some((field, rest)) => (field, Some(rest)),
        None => (text, None),
    }
}
