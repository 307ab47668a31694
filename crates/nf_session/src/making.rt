//! The made lines of a drill: the number, the time, the name and the bit of each.

ghost use Rattle.std.specs.Prelude.{◌≡◌, ◌∷◌, ◌+◌, ◌/◌, ◌%◌, ◌<◌, ◌^◌, ℕ, [], IfOk, pos, codes, length, position, bytes_eq, All, None, Some};
ghost use Rattle.nf_core.specs.Plan.{Plan as PlanOf, keys_of};
ghost use Rattle.nf_core.specs.Rows.{IsPlainCell};
ghost use Rattle.nf_core.specs.declared.values.Value.TheVariants.{Int as int};
ghost use Rattle.nf_line.specs.Rows.{interval_of, row_of};
ghost use Rattle.nf_session.specs.Drill.{drill_event, drill_name_of};
ghost use Rattle.nf_session.specs.inner.Drilling.{AreNumbersOf, StandsAt, cell_of};

use nf_core::{Interval, NoMemory, Plan, Row, Value};
use std::alloc::Global;

const MULTIPLIER: u64 = 6_364_136_223_846_793_005;

const INCREMENT: u64 = 1_442_695_040_888_963_407;

/// The maker of the lines: the number that the last one was made of, and its time. Before the first one that is 1
/// at the time 0.
#[derive(Debug, Clone, Copy)]
pub(crate) struct Maker {
    number: u64,
    time: u32,
}

impl Maker {
    /// The maker before the first line.
    pub(crate) fn new() -> Maker
        ensures { StandsAt 0 result }
    {
        Maker { number: 1, time: 0 }
    }

    /// The maker behind the next line. Its number has to fit in 32 bits.
    pub(crate) fn next(self) -> Maker
        requires { self.time + 1 < 2 ^ 32 }
        ensures { (i : ℕ) → StandsAt i self → StandsAt (i + 1) result }
    {
        let number = self.number.wrapping_mul(MULTIPLIER).wrapping_add(INCREMENT);
        Maker {
            number,
            time: self.time + (number >> 63) as u32,
        }
    }

    /// The upper four bits of the number.
    pub(crate) fn bits(self) -> u64
        ensures { result ≡ self.number / 2 ^ 60 }
    {
        self.number >> 60
    }

    /// The interval of the last line under a name: at its time, with its row.
    pub(crate) fn interval(
        self,
        alloc: Global,
        plan: &Plan,
        name: u32,
    ) -> Result<Interval, NoMemory>
        requires { name < length plan.now.names }
        ensures made { (i : ℕ) → StandsAt i self → IfOk result (λ interval.
            interval ≡ interval_of (keys_of plan.now name) (drill_event i)) }
        ensures row { IfOk result (λ interval.
            length interval.row ≡ length (keys_of plan.now name)) }
    {
        Ok(Interval {
            start: i64::from(self.time),
            stop: i64::from(self.time),
            row: made_row(alloc, plan, name, (self.bits() % 2) as u32)?,
        })
    }
}

/// The numbers that a plan gives to the four names of made lines, None where it doesn't have one.
#[derive(Debug, Clone, Copy)]
pub(crate) struct DrillNames {
    a: Option<u32>,
    b: Option<u32>,
    c: Option<u32>,
    d: Option<u32>,
}

impl DrillNames {
    /// The four names in a plan.
    pub(crate) fn of(plan: &Plan) -> DrillNames
        ensures { AreNumbersOf plan.now result }
    {
        DrillNames {
            a: plan.find("a"),
            b: plan.find("b"),
            c: plan.find("c"),
            d: plan.find("d"),
        }
    }

    /// The number of the name of a line with these upper bits.
    pub(crate) fn by_bits(&self, bits: u64) -> Option<u32>
        ensures { (plan : PlanOf) → AreNumbersOf plan self.now
            → result ≡ position (bytes_eq (drill_name_of bits)) plan.names }
    {
        match (bits / 2) % 4 {
            0 => self.a,
            1 => self.b,
            2 => self.c,
            _ => self.d,
        }
    }
}

// The row of a made line under the keys of a name: its bit at the place of `k`, and all else is missing.
fn made_row(alloc: Global, plan: &Plan, name: u32, bit: u32) -> Result<Row, NoMemory>
    requires { name < length plan.now.names }
    ensures { IfOk result (λ row. row ≡ row_of (keys_of plan.now name) ((codes "k", int (pos bit)) ∷ [])) }
{
    let mut row = Row::new(alloc);
    for place in 0..plan.keys(name) {
        row.push(made_cell(plan.key(name, place), bit))?;
    }
    Ok(row)
}

// The cell of a key.
fn made_cell(key: &str, bit: u32) -> Option<Value>
    ensures cell { result ≡ cell_of key.now bit }
    ensures plain { IsPlainCell result }
{
    if key == "k" {
        Some(Value::Int(i64::from(bit)))
    } else {
        None
    }
}
