//! The runs of a case.

use crate::contents::add_words;
use crate::faults::{read_calls, write_calls, written_before_read};
use crate::memory::run_difference;
use crate::settings::{Setting, Wanted};
use crate::trials::{Each, Failing, Party, Sizes, Trial};
use nf_cases::{Case, Report};
use nf_core::NoMemory;
use std::alloc::Global;

/// Runs a case as often as it says, and counts each run.
pub(crate) fn run_case(
    alloc: Global,
    case: &Case,
    trial: &Trial,
    report: &mut Report,
) -> Result<(), NoMemory> {
    let output = trial.output(alloc)?;
    for sizes in &trial.sizes(alloc)? {
        let runs = Runs {
            alloc,
            case,
            trial,
            sizes: *sizes,
            output: output.as_slice(),
        };
        runs.run(report)?;
    }
    Ok(())
}

// A case with one of its sizes, and the output that must come where no call fails.
#[derive(Clone, Copy)]
struct Runs<'a> {
    alloc: Global,
    case: &'a Case,
    trial: &'a Trial,
    sizes: Sizes,
    output: &'a [u8],
}

impl<'a> Runs<'a> {
    // What the case is run over.
    fn setting(&self) -> Setting<'a> {
        Setting {
            words: self.trial.words.as_slice(),
            files: self.trial.files.as_slice(),
            sizes: self.sizes,
            fails: self.trial.fails.as_slice(),
        }
    }

    // How the case must end.
    fn wanted(&self) -> Wanted<'a> {
        Wanted {
            status: self.trial.status,
            output: self.output,
            message: self.trial.message.as_slice(),
        }
    }

    // Runs once, and counts the run.
    fn count(
        &self,
        report: &mut Report,
        setting: Setting<'_>,
        wanted: Wanted<'_>,
    ) -> Result<(), NoMemory> {
        match run_difference(self.alloc, setting, wanted)? {
            None => report.count(self.case, None)?,
            Some(difference) => {
                let text = format!(in self.alloc; "{setting}: {difference}")?;
                report.count(self.case, Some(text.as_str()))?;
            }
        }
        Ok(())
    }

    // Runs once, or as often as the case says.
    fn run(&self, report: &mut Report) -> Result<(), NoMemory> {
        if self.trial.each.is_empty() {
            return self.count(report, self.setting(), self.wanted());
        }
        for each in &self.trial.each {
            self.run_each(report, each)?;
        }
        Ok(())
    }

    fn run_each(&self, report: &mut Report, each: &Each) -> Result<(), NoMemory> {
        match each {
            Each::Words(text) => self.run_words(report, text.as_str()),
            Each::Sizes(party, first, last) => self.run_sizes(report, *party, *first, *last),
            Each::Fault => {
                self.fail_reads(report)?;
                self.fail_writes(report)?;
                self.fail_messages(report)
            }
        }
    }

    fn run_words(&self, report: &mut Report, text: &str) -> Result<(), NoMemory> {
        for line in text.lines() {
            let mut words = Vec::new(self.alloc);
            add_words(self.alloc, &mut words, line)?;
            let setting = Setting {
                words: words.as_slice(),
                ..self.setting()
            };
            self.count(report, setting, self.wanted())?;
        }
        Ok(())
    }

    fn run_sizes(
        &self,
        report: &mut Report,
        party: Party,
        first: usize,
        last: usize,
    ) -> Result<(), NoMemory> {
        for size in first..=last {
            let setting = Setting {
                sizes: self.sizes.with(party, size),
                ..self.setting()
            };
            self.count(report, setting, self.wanted())?;
        }
        Ok(())
    }

    // Each call of the shelf, and one more, which isn't made.
    fn fail_reads(&self, report: &mut Report) -> Result<(), NoMemory> {
        let calls = read_calls(self.alloc, self.trial, self.sizes.read)?;
        let mut number = 1u64;
        for call in &calls {
            let output = written_before_read(self.alloc, self.trial, call)?;
            let name = call.file.name.as_str();
            let message = format!(in self.alloc; "nfer: cannot read {name}\n")?;
            let wanted = Wanted {
                status: 4,
                output: output.as_slice(),
                message: message.as_bytes(),
            };
            self.fail(report, Party::Shelf, number, wanted)?;
            number = number.saturating_add(1);
        }
        self.fail(report, Party::Shelf, number, self.wanted())
    }

    // Each call of the output, and one more, which isn't made.
    fn fail_writes(&self, report: &mut Report) -> Result<(), NoMemory> {
        let calls = write_calls(self.alloc, self.trial, self.sizes.write)?;
        let mut number = 1u64;
        for taken in &calls {
            let wanted = Wanted {
                status: 5,
                output: self.output.get(..*taken).unwrap_or(self.output),
                message: b"nfer: cannot write\n",
            };
            self.fail(report, Party::Output, number, wanted)?;
            number = number.saturating_add(1);
        }
        self.fail(report, Party::Output, number, self.wanted())
    }

    // Each call of the message, of one byte each, and one more, which isn't made.
    fn fail_messages(&self, report: &mut Report) -> Result<(), NoMemory> {
        let message = self.trial.message.as_slice();
        let mut number = 1u64;
        for taken in 0..=message.len() {
            let wanted = Wanted {
                message: message.get(..taken).unwrap_or(message),
                ..self.wanted()
            };
            self.fail(report, Party::Message, number, wanted)?;
            number = number.saturating_add(1);
        }
        Ok(())
    }

    // Runs with one failing call; where it is one of the message, messages take one byte a call.
    fn fail(
        &self,
        report: &mut Report,
        party: Party,
        call: u64,
        wanted: Wanted<'_>,
    ) -> Result<(), NoMemory> {
        let failing = Failing { party, call };
        let sizes = match party {
            Party::Message => self.sizes.with(party, 1),
            Party::Shelf | Party::Output => self.sizes,
        };
        let setting = Setting {
            sizes,
            fails: &[failing],
            ..self.setting()
        };
        self.count(report, setting, wanted)
    }
}
