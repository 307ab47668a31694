//! Reading one line.

ghost use Rattle.std.specs.Prelude.{◌≡◌, ◌≢◌, ◌<◌, ◌≤ℤ◌, false, [], length, map, reverse, bytes_eq, All, IfOk};
ghost use Rattle.std.specs.Map.{lookup};
ghost use Rattle.nf_core.specs.Plan.{keys_of};
ghost use Rattle.nf_core.specs.Rows.{IsPlainCell};
ghost use Rattle.nf_text.specs.Fields.{fields_of};
ghost use Rattle.nf_line.specs.Line.{holds_bar, line_within, parts_of, texts_of, spelled};
ghost use Rattle.nf_line.specs.Cutting.{CanBeRead};
ghost use Rattle.nf_line.specs.Rows.{row_of};
ghost use Rattle.nf_line.specs.Readings.{line_read};

use crate::fault::LineFault;
use crate::fields::{read_fields, read_text, read_times, test_counts, test_keys, test_span};
use crate::pairs::Pairs;
use crate::rows::{last_value, value};
use nf_core::{NoMemory, Plan, Row, Value};
use nf_text::plain_texts;
use std::alloc::Global;
use std::marker::Model;

/// An accepted line. Contracts see its name, its begin and its end, and its keys and values as they are
/// written (`Raw` of specs/Raw). Its texts are lent by the line.
#[derive(Debug, Drop)]
pub struct RawLine<'a> {
    name: &'a str,
    start: i64,
    stop: i64,
    keys: &'a str,
    values: &'a str,
}

impl<'a> Model for RawLine<'a> {
    ghost use Rattle.nf_line.specs.Raw as raw;
    ghost use Rattle.nf_line.specs.Line.{texts_in};
    ghost use Rattle.nf_line.specs.inner.Plain.{IsAccepted};

    ghost Value = { raw.Raw };

    ghost view = { λ l. record {
      name = l.name.now;
      start = l.start;
      stop = l.stop;
      texts = texts_in l.keys.now l.values.now;
    } };

    ghost invariant = { λ l. IsAccepted l.start l.stop l.values.now };
}

impl<'a> RawLine<'a> {
    /// Reads a line that isn't empty, of at most 65,536 bytes and without LF, whose one CR at the end
    /// was dropped before. The answer is the accepted line, or the first fault of the table
    /// (`line_within` of specs/Line). Keys and values are parts of the line, in its order. The name holds
    /// no `|`. Takes no memory.
    #[tactic(auto, using(crate::proofs::LineLemmas::reading, crate::proofs::PlainTextLemmas::values_unmarked, crate::proofs::PlainTextLemmas::name_unbarred))]
    pub fn read(line: &'a [u8]) -> Result<RawLine<'a>, LineFault>
        requires some { line.now ≢ [] }
        requires can_be_read { CanBeRead line.now }
        ensures line { line_read result ≡ line_within line.now }
        ensures texts { IfOk result (λ raw.
            raw.texts ≡ texts_of (parts_of (fields_of 124 line.now))) }
        ensures name { IfOk result (λ raw. holds_bar raw.name ≡ false) }
    {
        let text = read_text(line)?;
        let fields = read_fields(text)?;
        let times = read_times(fields.start, fields.stop)?;
        test_span(&times)?;
        test_keys(fields.keys)?;
        test_counts(fields.keys, fields.values)?;
        Ok(RawLine {
            name: fields.name,
            start: times.start,
            stop: times.stop,
            keys: fields.keys,
            values: fields.values,
        })
    }

    /// The name. Takes no memory.
    pub fn name(&self) -> &'a str
        ensures { result.now ≡ self.now.name }
    {
        self.name
    }

    /// When the line begins, which isn't after its end: at its second field, which is the time of a line
    /// of two or four fields. Takes no memory.
    pub fn start(&self) -> i64
        ensures start { result ≡ self.now.start }
        ensures within { result ≤ℤ self.now.stop }
    {
        self.start
    }

    /// When the line ends, by which lines are ordered: at its third field of five, and at its time where
    /// it has two or four. Takes no memory.
    pub fn time(&self) -> i64
        ensures { result ≡ self.now.stop }
    {
        self.stop
    }

    /// The keys with their values, as they are written, in their order. Takes no memory.
    pub fn pairs(&self) -> Pairs<'a>
        ensures { result ≡ self.now.texts }
    {
        Pairs::of(self.keys, self.values)
    }

    /// The row of a name of the plan: each of its keys has the value of its last pair, or is missing
    /// (`row_of` of specs/Rows). Its texts are plain.
    pub fn row(&self, alloc: Global, plan: &Plan, name: u32) -> Result<Row, NoMemory>
        requires { name < length plan.now.names }
        ensures row { IfOk result (λ row.
            row ≡ row_of (keys_of plan.now name) (map spelled self.now.texts)) }
        ensures plain { IfOk result (All IsPlainCell) }
    {
        let mut row = Row::new(alloc);
        for place in 0..plan.keys(name) {
            row.push(self.cell(alloc, plan.key(name, place))?)?;
        }
        Ok(row)
    }

    // The cell of a key.
    #[tactic(auto, using(crate::proofs::CellLemmas::cell_of))]
    pub(crate) fn cell(&self, alloc: Global, key: &str) -> Result<Option<Value>, NoMemory>
        ensures cell { IfOk result (λ cell.
            cell ≡ lookup (bytes_eq key.now) (reverse (map spelled self.now.texts))) }
        ensures plain { IfOk result IsPlainCell }
    {
        plain_texts();
        match last_value(Pairs::of(self.keys, self.values), key) {
            Some(text) => Ok(Some(value(alloc, text)?)),
            None => Ok(None),
        }
    }
}
