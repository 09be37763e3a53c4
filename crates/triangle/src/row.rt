// The working row: a slice with a place for each index of a file, which has the rank of that index's record while a matrix is read, and is zero otherwise.
ghost use Rattle.std.specs.Prelude.{◌≡◌, ℕ, ◌-◌, ◌<◌, ◌≤◌, not, ◌&&◌, length, replicate, if◌then◌else◌, Ok, Err, slice_set};
ghost use Rattle.refusals.specs.declared.Fault.TheVariants.{RecordAbsent, WrongCell};
ghost use Rattle.tables.specs.Rows.{known};
ghost use Rattle.triangle.specs.Triangle.{spot, cell};
ghost use Rattle.triangle.specs.Statements.{rank_in, rank_answer, rank_granted, fill_answer, fill_row, counted, inside, on_side, rank_of, free, sound, stated, run, taken};

use crate::cell::{Cell, RANKS, get_cell, set_cell};
use refusals::Fault;
use tables::table::{Record, find_in};

// Which triangle of the matrix a file states.
#[derive(Clone, Copy)]
pub enum Side {
    Lower,
    Upper,
}

// An element of a matrix block: row and column in the file's numbering, from 1, and the value.
#[derive(Clone, Copy)]
pub struct Element<T> {
    pub row: usize,
    pub column: usize,
    pub value: T,
}

// The rank of r's record in the table; refused where the table has no such record.
fn find_rank<R: Record>(rows: &[R], used: usize, r: &R) -> Result<u32, Fault>
    requires { used ≤ 2000 }
    ensures { result ≡ (if known R.Record.order r.now used rows.now then Ok (rank_in R.Record.order used rows.now r.now) else Err RecordAbsent) }
{
    match find_in(rows, used, r) {
        Ok(rank) => Ok(rank as u32),
        Err(_) => Err(Fault::RecordAbsent),
    }
}

// Notes the rank of the record that a file has at this index.
pub fn rank_record<R: Record>(
    row: &mut [u32],
    index: usize,
    rows: &[R],
    used: usize,
    r: &R,
) -> Result<(), Fault>
    ensures answer { result ≡ rank_answer R.Record.order used rows.now (length row.old) index r.now }
    ensures row { row.new ≡ (if rank_granted R.Record.order used rows.now (length row.old) index r.now then slice_set row.old (index - 1) (rank_in R.Record.order used rows.now r.now) else row.old) }
{
    if used > RANKS {
        return Err(Fault::TableLengths);
    }
    if !within(row.len(), index) {
        return Err(Fault::OutOfStep);
    }
    row[index - 1] = find_rank(rows, used, r)?;
    Ok(())
}

// Whether the index is one of 1 to n.
fn within(n: usize, index: usize) -> bool
    ensures { result ≡ counted n index }
{
    (1..=n).contains(&index)
}

// Makes the row zero.
pub fn clear_row(row: &mut [u32])
    ensures { row.new ≡ replicate (length row.old) 0 }
{
    row.fill(0);
}

// Notes the ranks of the records in a file's order. Where one is absent the row is zero.
pub fn fill_row<R: Record>(
    row: &mut [u32],
    rows: &[R],
    used: usize,
    records: &[R],
) -> Result<(), Fault>
    ensures answer { result ≡ fill_answer R.Record.order used rows.now (length row.old) records.now }
    ensures row { row.new ≡ fill_row R.Record.order used rows.now row.old records.now }
{
    if used > RANKS {
        return Err(Fault::TableLengths);
    }
    if records.len() > row.len() {
        return Err(Fault::OutOfStep);
    }
    for (i, r) in records.iter().enumerate() {
        match find_rank(rows, used, r) {
            Ok(rank) => row[i] = rank,
            Err(fault) => {
                clear_row(row);
                return Err(fault);
            }
        }
    }
    Ok(())
}

// Whether row and column are both within 1 to the count.
pub fn within_count(count: usize, row: usize, column: usize) -> bool
    ensures { result ≡ inside count row column }
{
    within(count, row) && within(count, column)
}

// Whether the cell of row and column is in that triangle.
fn on_side(side: Side, row: usize, column: usize) -> bool
    ensures { result ≡ on_side side row column }
{
    match side {
        Side::Lower => column <= row,
        Side::Upper => row <= column,
    }
}

// The matrix of a file: by the working row the rank of each of its indices, how many of these there are, and the triangle that it states.
#[derive(Clone, Copy)]
pub struct FileMatrix<'a> {
    pub ranks: &'a [u32],
    pub count: usize,
    pub side: Side,
}

impl FileMatrix<'_> {
    // Whether the element's cell, by the ranks of its row and column, is in the file's triangle and still zero.
    fn is_free<T: Cell>(&self, cells: &[T], e: &Element<T>) -> bool
        ensures { result ≡ free T.Cell.is_nought self.now.ranks.now self.now.count self.now.side (length cells.now) (cell T.Cell.nought cells.now) e.now }
    {
        let FileMatrix { ranks, count, side } = *self;
        if !within_count(count.min(ranks.len()), e.row, e.column)
            || !on_side(side, e.row, e.column)
        {
            return false;
        }
        get_cell(
            cells,
            ranks[e.row - 1] as usize,
            ranks[e.column - 1] as usize,
        )
        .is_some_and(|before| before.is_zero())
    }

    // States an element at the ranks of its row and column. Zero states nothing; a cell that is not free is refused.
    pub fn state_cell<T: Cell>(&self, cells: &mut [T], e: Element<T>) -> Result<(), Fault>
        ensures answer { result ≡ (if sound T.Cell.is_nought self.now.ranks.now self.now.count self.now.side (length cells.old) (cell T.Cell.nought cells.old) e then Ok tt else Err WrongCell) }
        ensures list { cells.new ≡ (if not (T.Cell.is_nought e.value) && free T.Cell.is_nought self.now.ranks.now self.now.count self.now.side (length cells.old) (cell T.Cell.nought cells.old) e then slice_set cells.old (spot (rank_of self.now.ranks.now e.row) (rank_of self.now.ranks.now e.column)) e.value else cells.old) }
        ensures matrix { (a b : ℕ) → cell T.Cell.nought cells.new a b ≡ (if sound T.Cell.is_nought self.now.ranks.now self.now.count self.now.side (length cells.old) (cell T.Cell.nought cells.old) e then stated T.Cell.is_nought self.now.ranks.now (cell T.Cell.nought cells.old) e a b else cell T.Cell.nought cells.old a b) }
    {
        if e.value.is_zero() {
            return Ok(());
        }
        if !self.is_free(cells, &e) {
            return Err(Fault::WrongCell);
        }
        set_cell(
            cells,
            self.ranks[e.row - 1] as usize,
            self.ranks[e.column - 1] as usize,
            e.value,
        )
    }

    // States the elements up to the first that may not be stated, and says how many these are.
    pub fn state_all<T: Cell>(&self, cells: &mut [T], elements: &[Element<T>]) -> usize
        ensures answer { result ≡ taken T.Cell.is_nought self.now.ranks.now self.now.count self.now.side (length cells.old) (cell T.Cell.nought cells.old) elements.now }
        ensures matrix { (a b : ℕ) → cell T.Cell.nought cells.new a b ≡ run T.Cell.is_nought self.now.ranks.now self.now.count self.now.side (length cells.old) (cell T.Cell.nought cells.old) elements.now a b }
    {
        for (k, e) in elements.iter().enumerate() {
            if self.state_cell(cells, *e).is_err() {
                return k;
            }
        }
        elements.len()
    }
}
