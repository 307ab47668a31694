//! A command, read from the words.

ghost use Rattle.std.specs.Prelude.{◌≡◌, option_map};
ghost use Rattle.std.specs.Option.{option_copied};
ghost use Rattle.std.specs.List.{list_all};
ghost use Rattle.nfer_cli.specs.Words.{are_file_words, is_file_word, is_trace_word, specification_words, file_words, word_at, trace_of, no_options, check_options, follow_options};
ghost use Rattle.nfer_cli.specs.inner.Options.{taken};
ghost use Rattle.nfer_cli.specs.inner.Commands.{asked, asked_by, check_of, drill_of, follow_of, infer_of};

use crate::line_count::parse_lines;
use crate::options::{CommandOptions, take_options};
use nf_core::Text;

// What the number of a specification's files stays below.
const FILES_LIMIT: usize = 1 << 32;

/// The word under which a command reads standard input (`standard_input` of specs/Words.antt).
pub(crate) const TRACE_WORD: &str = "-";

/// A command with its options and the words of the specification's files (`Asked` of specs/Words.antt).
#[derive(Debug, Clone, Copy)]
pub(crate) enum Command<'a> {
    /// Prints the specification in these files.
    Check {
        options: CommandOptions<'a>,
        files: &'a [Text],
    },
    /// Follows standard input under the specification in these files.
    Follow {
        options: CommandOptions<'a>,
        files: &'a [Text],
    },
    /// Runs the trace of this name under the specification in these files.
    Infer {
        options: CommandOptions<'a>,
        files: &'a [Text],
        trace: &'a str,
    },
    /// Counts what this many lines of the made trace change.
    Drill {
        lines: u32,
    },
}

impl<'a> Command<'a> {
    /// The command that some words ask for. None exactly where they ask for nothing (`asked` of
    /// specs/inner/Commands.antt). Takes no memory.
    #[tactic(auto, unfolding(crate::specs::inner::Commands::asked))]
    pub(crate) fn parse(words: &'a [Text]) -> Option<Command<'a>>
        ensures { option_map asked_by result ≡ asked words.now }
    {
        let (name, words) = words.split_first()?;
        match name.as_str() {
            "check" => parse_check(words),
            "follow" => parse_follow(words),
            "infer" => parse_infer(words),
            "drill" => parse_drill(words),
            _ => None,
        }
    }

    /// The word of the trace that the command reads, where it reads one (`trace_of` of
    /// specs/Words.antt).
    pub(crate) fn trace(self) -> Option<&'a str>
        ensures { option_copied result ≡ trace_of (asked_by self.entry) }
    {
        match self {
            Command::Check { .. } => None,
            Command::Follow { .. } => Some(TRACE_WORD),
            Command::Infer { trace, .. } => Some(trace),
            Command::Drill { .. } => None,
        }
    }

    // The words of the specification's files.
    fn files(self) -> &'a [Text]
        ensures { result.now ≡ specification_words (Some (asked_by self.entry)) }
    {
        match self {
            Command::Check { files, .. }
            | Command::Follow { files, .. }
            | Command::Infer { files, .. } => files,
            Command::Drill { .. } => &[],
        }
    }

    /// The file word at a place, counted from 0 (`file_words` of specs/Words.antt), and the empty text
    /// past them.
    pub(crate) fn file_word(self, place: usize) -> &'a str
        ensures { result.now ≡ word_at (file_words (Some (asked_by self.entry))) place }
    {
        let files = self.files();
        match files.get(place) {
            Some(file) => file.as_str(),
            None if place == files.len() => self.trace().unwrap_or(""),
            None => "",
        }
    }
}

// What the words behind `check` ask for.
fn parse_check<'a>(words: &'a [Text]) -> Option<Command<'a>>
    ensures { option_map asked_by result ≡ check_of (taken check_options no_options words.now) }
{
    let (options, files) = take_options(&["--module"], words)?;
    if !are_file_words(files) {
        return None;
    }
    Some(Command::Check { options, files })
}

// What the words behind `follow` ask for.
fn parse_follow<'a>(words: &'a [Text]) -> Option<Command<'a>>
    ensures { option_map asked_by result ≡ follow_of (taken follow_options no_options words.now) }
{
    let (options, files) = take_options(&["--full", "--module"], words)?;
    if !are_file_words(files) {
        return None;
    }
    Some(Command::Follow { options, files })
}

// What the words behind `infer` ask for: the last one is that of the trace.
fn parse_infer<'a>(words: &'a [Text]) -> Option<Command<'a>>
    ensures { option_map asked_by result ≡ infer_of (taken follow_options no_options words.now) }
{
    let (options, rest) = take_options(&["--full", "--module"], words)?;
    let (trace, files) = rest.split_last()?;
    let trace = trace.as_str();
    if !are_file_words(files) || !is_trace_word(trace) {
        return None;
    }
    Some(Command::Infer {
        options,
        files,
        trace,
    })
}

// What the words behind `drill` ask for: one, the number of the lines.
fn parse_drill<'a>(words: &'a [Text]) -> Option<Command<'a>>
    ensures { option_map asked_by result ≡ drill_of words.now }
{
    match words {
        [word] => {
            let lines = parse_lines(word.as_str())?;
            Some(Command::Drill { lines })
        }
        _ => None,
    }
}

// Whether words can be those of a specification's files: one or more, fewer than 2^32, and none
// begins with `-`.
fn are_file_words(files: &[Text]) -> bool
    ensures { result ≡ are_file_words files.now }
{
    match files {
        [] => false,
        _ => files.len() < FILES_LIMIT && name_files(files),
    }
}

// Whether each word can name a file.
fn name_files(words: &[Text]) -> bool
    ensures { result ≡ list_all is_file_word words.now }
{
    words.iter().all(|word| is_file_word(word.as_str()))
}

// Whether a word can name a trace: it can name a file, or is `-`.
fn is_trace_word(word: &str) -> bool
    ensures { result ≡ is_trace_word word.now }
{
    word == TRACE_WORD || is_file_word(word)
}

// Whether a word can name a file: it doesn't begin with `-`.
fn is_file_word(word: &str) -> bool
    ensures { result ≡ is_file_word word.now }
{
    match word.as_bytes() {
        [] => true,
        [first, ..] => *first != b'-',
    }
}
