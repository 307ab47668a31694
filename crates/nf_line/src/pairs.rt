//! The pairs of a line.

ghost use Rattle.std.specs.Prelude.{◌≡◌};
ghost use Rattle.std.specs.Iterator.{YieldsFirstBy, item_count};
ghost use Rattle.nf_line.specs.Line.{texts_in};
ghost use Rattle.nf_line.specs.PairTexts.{pair_text};

use nf_text::{Split, split};
use std::marker::Model;

/// An iterator of the pairs of a key and a value that are left of a line, in the order in which they
/// are written. Contracts see the list of their texts. Each text is lent by the line.
#[derive(Debug, Drop)]
pub struct Pairs<'a> {
    has_pairs: bool,
    keys: Split<'a>,
    values: Split<'a>,
}

impl<'a> Model for Pairs<'a> {
    ghost use Rattle.std.specs.Prelude.{ℕ, List, [], if◌then◌else◌};
    ghost use Rattle.std.specs.List.{zip};

    ghost Value = { List (List ℕ × List ℕ) };

    ghost view = { λ p. if p.has_pairs then zip p.keys p.values else [] };
}

impl<'a> Pairs<'a> {
    /// The pairs of a keys' field and a values' field.
    pub(crate) fn of(keys: &'a str, values: &'a str) -> Pairs<'a>
        ensures { result ≡ texts_in keys.now values.now }
    {
        Pairs {
            has_pairs: !keys.is_empty(),
            keys: split(keys, b';'),
            values: split(values, b';'),
        }
    }
}

impl<'a> Iterator for Pairs<'a> {
    type Item = (&'a str, &'a str);

    ghost next_gives = { YieldsFirstBy pair_text (λ p. p) };

    ghost remaining = { item_count (λ p. p) };

    #[tactic(auto, using(crate::proofs::ZipLemmas::zip_nil))]
    fn next(&mut self) -> Option<(&'a str, &'a str)> {
        if !self.has_pairs {
            return None;
        }
        let key = self.keys.next()?;
        let value = self.values.next()?;
        Some((key, value))
    }
}
