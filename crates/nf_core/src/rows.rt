//! Rows.

ghost use Rattle.std.specs.Prelude.{◌≡◌, ◌<◌, [], ◌∷◌, ◌++◌, All, length, slice_index_or, None, Some, IfOk, OnOk, OnErr, refl};
ghost use Rattle.std.specs.Option.{option_copied};
ghost use Rattle.std.specs.Ordering.{eq_by_cmp};
ghost use Rattle.std.specs.Cmp.{partial_equiv_from_equiv, eq_by_cmp_equiv, po};
ghost use Rattle.nf_core.specs.Rows.{row_cmp, row_cmp_total, IsPlainCell};

use crate::copies::TryCopy;
use crate::errors::NoMemory;
use crate::values::Value;
use smallvec::SmallVec;
use std::alloc::Global;
use std::cmp::Ordering;
use std::marker::Model;
use std::rc::Rc;

/// A row: one optional value for each key of a name, in the order of the keys. Contracts see the
/// list of these cells. Each text in a row is plain (`IsPlain` of specs/Texts).
///
/// Copies of a row share its cells, so an interval is small and a copy takes no memory of its own.
#[derive(Debug, Drop)]
pub struct Row {
    alloc: Global,
    cells: Option<Rc<Cells>>,
}

// Cells, of which two are kept without memory of their own.
type Cells = SmallVec<Option<Value>, 2>;

impl Model for Row {
    ghost use Rattle.std.specs.Prelude.{List, Option, All};
    ghost use Rattle.nf_core.specs.declared.values.Value as value;

    ghost Value = { List (Option value.Value) };

    ghost use Rattle.nf_core.specs.Rows.{IsPlainCell};
    ghost use Rattle.nf_core.specs.inner.Cells.{listed};

    ghost view = { λ r. listed (λ shared. shared.value.items) r.cells };

    ghost invariant = { λ r.
        All IsPlainCell (listed (λ shared. shared.value.items) r.cells) };
}

impl Row {
    /// The row without cells. Takes no memory.
    pub fn new(alloc: Global) -> Row
        ensures { result ≡ [] }
    {
        Row { alloc, cells: None }
    }

    /// Puts a cell at the end. Where memory is wanted the row stays as it was. A row that shares its
    /// cells copies them first.
    pub fn push(&mut self, cell: Option<Value>) -> Result<(), NoMemory>
        requires { IsPlainCell cell }
        ensures ok { OnOk result (self.new ≡ self.old ++ cell ∷ []) }
        ensures err { OnErr result (self.new ≡ self.old) }
    {
        if let Some(shared) = &mut self.cells {
            if let Some(cells) = Rc::get_mut(shared) {
                cells.push(cell)?;
                return Ok(());
            }
        }
        let mut cells = copied(self.alloc, self.as_slice())?;
        cells.push(cell)?;
        self.cells = Some(Rc::new(self.alloc, cells)?);
        Ok(())
    }

    /// How many cells there are.
    pub fn len(&self) -> usize
        ensures { result ≡ length self.now }
    {
        self.as_slice().len()
    }

    /// The value of the cell at a place, counted from 0. None exactly where it is missing. A text in
    /// it is plain.
    pub fn get(&self, place: usize) -> Option<&Value>
        requires { place < length self.now }
        ensures value { option_copied result ≡ slice_index_or self.now place None }
        ensures plain { IsPlainCell (option_copied result) }
    {
        self.as_slice()[place].as_ref()
    }

    // The cells, as borrowed.
    fn as_slice(&self) -> &[Option<Value>]
        ensures cells { result.now ≡ self.now }
        ensures plain { All IsPlainCell self.now }
    {
        match &self.cells {
            Some(shared) => shared.as_slice(),
            None => &[],
        }
    }
}

// A copy of cells.
fn copied(alloc: Global, cells: &[Option<Value>]) -> Result<Cells, NoMemory>
    ensures { IfOk result (λ copy. copy.items ≡ cells.now) }
{
    let mut copy = SmallVec::new(alloc);
    for cell in cells {
        copy.push(cell.copy(alloc)?)?;
    }
    Ok(copy)
}

impl TryCopy for Row {
    fn copy(&self, alloc: Global) -> Result<Row, NoMemory> {
        match &self.cells {
            Some(shared) => Ok(Row {
                alloc,
                cells: Some(shared.clone()?),
            }),
            None => Ok(Row::new(alloc)),
        }
    }
}

impl PartialEq for Row {
    ghost eq = { eq_by_cmp row_cmp };

    ghost laws = { partial_equiv_from_equiv (eq_by_cmp_equiv row_cmp_total) };

    fn eq(&self, other: &Row) -> bool {
        self.cmp(other).is_eq()
    }
}

impl Eq for Row {
    ghost laws = { eq_by_cmp_equiv row_cmp_total };
}

impl PartialOrd for Row {
    ghost partial_cmp = { λ a b. Some (row_cmp a b) };

    ghost laws = { po row_cmp_total (λ a b. refl) };

    fn partial_cmp(&self, other: &Row) -> Option<Ordering> {
        Some(self.cmp(other))
    }
}

impl Ord for Row {
    ghost cmp = { row_cmp };

    ghost total = { row_cmp_total };

    ghost matches_partial_cmp = { λ a b. refl };

    ghost matches_eq = { λ a b. refl };

    fn cmp(&self, other: &Row) -> Ordering {
        self.as_slice().cmp(other.as_slice())
    }
}
