//! The options in front of file words.

ghost use Rattle.std.specs.List.{list_any};
ghost use Rattle.std.specs.Prelude.{◌≡◌, ◌≤◌, bytes_eq, length, option_map, IfSome};
ghost use Rattle.nfer_cli.specs.inner.Options.{AreWithOption, given_by, taken, taken_by, words_by};
ghost use Rattle.nfer_cli.specs.Words.{no_options};

use nf_core::Text;
use nf_lex::is_identifier;

/// The options of a command (`Options` of specs/Words.antt).
#[derive(Debug, Clone, Copy)]
pub(crate) struct CommandOptions<'a> {
    /// Whether every candidate is held.
    pub full: bool,
    /// The module that is selected with those that it reaches, where one is named.
    pub root: Option<&'a str>,
}

/// The options of these names that stand in front of some words, in any order, and the words behind
/// them. None exactly where one is given twice or `--module` names no identifier (`taken` of
/// specs/inner/Options.antt). Takes no memory.
pub(crate) fn take_options<'a>(
    names: &[&str],
    words: &'a [Text],
) -> Option<(CommandOptions<'a>, &'a [Text])>
    ensures { option_map taken_by result ≡ taken (words_by names.now) no_options words.now }
{
    let mut options = CommandOptions {
        full: false,
        root: None,
    };
    let mut rest = words;
    'options: while let Some((word, others)) = rest.split_first() {
        if !is_among(word.as_str(), names) {
            return Some((options, rest));
        }
        let (more, behind) = options.with(word.as_str(), others)?;
        options = more;
        rest = behind;
    }
    Some((options, rest))
}

// Whether a word is one of some names.
fn is_among(word: &str, names: &[&str]) -> bool
    ensures { result ≡ list_any (λ name. bytes_eq name.now word.now) names.now }
{
    names.iter().any(|name| *name == word)
}

impl<'a> CommandOptions<'a> {
    // These options with one more, by its name and the words behind it, and the words behind all of it.
    // None exactly where it is given already, or names no module.
    fn with(self, name: &str, words: &'a [Text]) -> Option<(CommandOptions<'a>, &'a [Text])>
        ensures taken { AreWithOption (given_by self.entry) name.now words.now
            (option_map taken_by result) }
        ensures no_more { IfSome result (λ taken. length taken.1.now ≤ length words.now) }
    {
        match name {
            "--full" if !self.full => Some((CommandOptions { full: true, ..self }, words)),
            "--module" if self.root.is_none() => {
                let (root, others) = words.split_first()?;
                let root = root.as_str();
                if !is_identifier(root.as_bytes()) {
                    return None;
                }
                let options = CommandOptions {
                    root: Some(root),
                    ..self
                };
                Some((options, others))
            }
            _ => None,
        }
    }
}
