//! The one line that standard error gets.

ghost use Rattle.std.specs.Prelude.{◌≡◌, ◌≤◌, flat_map};
ghost use Rattle.nfer_cli.specs.Messages.{Reports, message, specification_message, at_line, at_rule, at_trace_line, trace_message, line_text, kind_text, fall_text, fault_text, fault_line};
ghost use Rattle.nfer_cli.specs.Words.{word_at};
ghost use Rattle.nfer_cli.specs.inner.Commands.{names_by};

use crate::command::Command;
use crate::status::Status;
use itoa::Buffer;
use nf_io::{Failed, Sink, write_all};
use nf_lex::LexFault;
use nf_line::{LineFault, TraceFault};
use nf_spec::SpecFault;
use nf_typing::KindFault;

/// Writes the message of the status that a command ended with, and nothing where all is done (`message` of
/// specs/Messages.antt). Without a command the words ask for nothing.
/// Takes no memory. A sink that fails took a prefix of it.
#[tactic(auto, unfolding(crate::specs::Messages::message))]
pub(crate) fn report<E: Sink>(err: &mut E, command: Option<Command<'_>>, status: &Status)
    ensures message { Reports (E.tells err.old) (E.tells err.new)
        (message (names_by command.entry) status.now) }
    ensures never_falls { (E.tells err.old).faults ≤ (E.tells err.new).faults }
{
    let _written = match status {
        Status::Done => Ok(()),
        Status::Usage => write_texts(err, &["nfer: usage\n"]),
        Status::Specification(fault) => write_specification_fault(err, command, fault),
        Status::Trace(fault) => write_trace_fault(err, fault),
        Status::ReadFault(place) => {
            write_texts(
                err,
                &["nfer: cannot read ", file_word(command, *place), "\n"],
            )
        }
        Status::WriteFault => write_texts(err, &["nfer: cannot write\n"]),
        Status::NoMemory => write_texts(err, &["nfer: no memory\n"]),
    };
}

// The file word of a command at a place, counted from 0, and the empty text where there is none.
fn file_word<'a>(command: Option<Command<'a>>, place: usize) -> &'a str
    ensures { result.now ≡ word_at (names_by command.entry) place }
{
    match command {
        Some(command) => command.file_word(place),
        None => "",
    }
}

// Writes the message of a refused specification.
#[tactic(auto, unfolding(crate::specs::Messages::specification_message))]
fn write_specification_fault<E: Sink>(
    err: &mut E,
    command: Option<Command<'_>>,
    fault: &SpecFault,
) -> Result<(), Failed>
    ensures message { Reports (E.tells err.old) (E.tells err.new)
        (specification_message (names_by command.entry) fault.now) }
    ensures never_falls { (E.tells err.old).faults ≤ (E.tells err.new).faults }
{
    match fault {
        SpecFault::TooLong => write_texts(err, &["nfer: specification too long\n"]),
        SpecFault::Lex(place, fault) => {
            let file = file_word(command, *place as usize);
            write_at_line(err, file, fault_line(fault), fault_text(fault))
        }
        SpecFault::Grammar(place, line) => {
            write_at_line(err, file_word(command, *place as usize), *line, "grammar")
        }
        SpecFault::TooDeep(place, line) => {
            write_at_line(err, file_word(command, *place as usize), *line, "too deep")
        }
        SpecFault::NoModule(name) => {
            write_texts(err, &["nfer: no module ", name.as_str(), "\n"])
        }
        SpecFault::SameModule(name) => {
            write_texts(err, &["nfer: module ", name.as_str(), " twice\n"])
        }
        SpecFault::Kinds(rule, fault) => write_at_rule(err, *rule, kind_text(fault)),
        SpecFault::Cycle(head) => write_texts(err, &["nfer: cycle at ", head.as_str(), "\n"]),
        SpecFault::NoMemory => write_texts(err, &["nfer: no memory\n"]),
    }
}

// Writes a refusal of a rule, by its number.
fn write_at_rule<E: Sink>(err: &mut E, rule: u32, what: &str) -> Result<(), Failed>
    ensures rule { Reports (E.tells err.old) (E.tells err.new)
        (at_rule rule what.now) }
    ensures never_falls { (E.tells err.old).faults ≤ (E.tells err.new).faults }
{
    let mut number = Buffer::new();
    write_texts(err, &["nfer: rule ", number.format(rule), ": ", what, "\n"])
}

// Writes a refusal at a line of a file.
fn write_at_line<E: Sink>(err: &mut E, file: &str, line: u64, what: &str) -> Result<(), Failed>
    ensures line { Reports (E.tells err.old) (E.tells err.new)
        (at_line file.now line what.now) }
    ensures never_falls { (E.tells err.old).faults ≤ (E.tells err.new).faults }
{
    let mut number = Buffer::new();
    write_texts(
        err,
        &["nfer: ", file, ":", number.format(line), ": ", what, "\n"],
    )
}

// Writes the message of a refused trace.
#[tactic(auto, unfolding(crate::specs::Messages::trace_message))]
fn write_trace_fault<E: Sink>(err: &mut E, fault: &TraceFault) -> Result<(), Failed>
    ensures message { Reports (E.tells err.old) (E.tells err.new)
        (trace_message fault.now) }
    ensures never_falls { (E.tells err.old).faults ≤ (E.tells err.new).faults }
{
    match fault {
        TraceFault::Long(line) => write_at_trace_line(err, *line, "long"),
        TraceFault::Line(line, fault) => write_at_trace_line(err, *line, line_text(fault)),
        TraceFault::Order { line, kept, found } => write_order(err, *line, *kept, *found),
        TraceFault::TooLong => write_texts(err, &["nfer: input too long\n"]),
    }
}

// Writes a refusal of a line of the trace.
fn write_at_trace_line<E: Sink>(err: &mut E, line: u64, what: &str) -> Result<(), Failed>
    ensures line { Reports (E.tells err.old) (E.tells err.new)
        (at_trace_line line what.now) }
    ensures never_falls { (E.tells err.old).faults ≤ (E.tells err.new).faults }
{
    let mut number = Buffer::new();
    write_texts(err, &["nfer: line ", number.format(line), ": ", what, "\n"])
}

// Writes the refusal of a time that is less than the one before it.
fn write_order<E: Sink>(err: &mut E, line: u64, kept: i64, found: i64) -> Result<(), Failed>
    ensures order { Reports (E.tells err.old) (E.tells err.new)
        (at_trace_line line (fall_text kept found)) }
    ensures never_falls { (E.tells err.old).faults ≤ (E.tells err.new).faults }
{
    let mut number = Buffer::new();
    let mut found_time = Buffer::new();
    let mut kept_time = Buffer::new();
    write_texts(
        err,
        &[
            "nfer: line ",
            number.format(line),
            ": time ",
            found_time.format(found),
            " after ",
            kept_time.format(kept),
            "\n",
        ],
    )
}

// What is shown of a line's fault.
fn line_text(fault: &LineFault) -> &'static str
    ensures { result.now ≡ line_text fault.now }
{
    match fault {
        LineFault::NotText => "not text",
        LineFault::Fields => "fields",
        LineFault::Time => "time",
        LineFault::Span => "span",
        LineFault::Key => "key",
        LineFault::Counts => "counts",
    }
}

// What is shown of a rule's kinds.
fn kind_text(fault: &KindFault) -> &'static str
    ensures { result.now ≡ kind_text fault.now }
{
    match fault {
        KindFault::UnknownLabel => "unknown label",
        KindFault::SameLabel => "same label",
        KindFault::WrongKind => "wrong kind",
        KindFault::SecondLabel => "second label",
        KindFault::SameKey => "same key",
    }
}

// What is shown of a lexical fault.
fn fault_text(fault: &LexFault) -> &'static str
    ensures { result.now ≡ fault_text fault.now }
{
    match fault {
        LexFault::BadByte(_) => "bad byte",
        LexFault::BadText(_) => "bad text",
        LexFault::OpenText(_) => "open text",
        LexFault::OpenComment(_) => "open comment",
        LexFault::BigNumber(_) => "big number",
        LexFault::NoMemory => "no memory",
    }
}

// The line of a lexical fault.
fn fault_line(fault: &LexFault) -> u64
    ensures { result ≡ fault_line fault.now }
{
    match fault {
        LexFault::BadByte(line)
        | LexFault::BadText(line)
        | LexFault::OpenText(line)
        | LexFault::OpenComment(line)
        | LexFault::BigNumber(line) => *line,
        LexFault::NoMemory => 0,
    }
}

// Writes texts one after the other.
fn write_texts<E: Sink>(err: &mut E, texts: &[&str]) -> Result<(), Failed>
    ensures texts { Reports (E.tells err.old) (E.tells err.new)
        (flat_map (λ text. text.now) texts.now) }
    ensures never_falls { (E.tells err.old).faults ≤ (E.tells err.new).faults }
{
    for text in texts {
        write_all(err, text.as_bytes())?;
    }
    Ok(())
}
