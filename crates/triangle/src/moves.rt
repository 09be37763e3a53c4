// Opening and closing a rank in place. Opening goes in two steps: first all the moves, then the zeros.
ghost use Rattle.std.specs.Prelude.{◌≡◌, ℕ, suc, ◌+◌, ◌-◌, ◌<◌, ◌≤◌, false, not, ◌&&◌, length, if◌then◌else◌, Ok, Err, ◌==◌, nat_le, nat_lt};
ghost use Rattle.refusals.specs.declared.Fault.TheVariants.{TableFull, RecordAbsent};
ghost use Rattle.triangle.specs.Triangle.{tri, HasRows, cell, low, skip, jump, spread, wiped, opened_in, closed_in, rows_of, openable, closable};

use crate::cell::{Cell, RANKS, has_rows, rows};
use refusals::Fault;

// Copies row i into row i + 1, passing over column r of row i + 1. Apart from `sink_row`, which lends the other row for writing.
fn lift_row<T: Cell>(cells: &mut [T], i: usize, r: usize)
    requires rows { HasRows (length cells.old) (suc (suc i)) }
    requires rank { r ≤ i }
    ensures { (a b : ℕ) → b ≤ a → low T.Cell.nought cells.new a b ≡ (if a == i + 1 && not (b == r) then low T.Cell.nought cells.old i (skip r b) else low T.Cell.nought cells.old a b) }
{
    let (above, next) = cells.split_at_mut(rows(i + 1));
    let row = &above[rows(i)..];
    next[..r].copy_from_slice(&row[..r]);
    next[r + 1..i + 2].copy_from_slice(&row[r..]);
}

// Moves the rows from r to n - 1 down by one row, each passing over column r. By number, since a row's place follows from its number.
fn lift<T: Cell>(cells: &mut [T], n: usize, r: usize)
    requires rows { HasRows (length cells.old) (suc n) }
    requires rank { r ≤ n }
    ensures { (a b : ℕ) → cell T.Cell.nought cells.new a b ≡ spread n r (cell T.Cell.nought cells.old) a b }
{
    for i in (r..n).rev() {
        lift_row(cells, i, r);
    }
}

// Row r becomes zero.
fn wipe_row<T: Cell>(cells: &mut [T], r: usize)
    requires { HasRows (length cells.old) (suc r) }
    ensures { (a b : ℕ) → b ≤ a → low T.Cell.nought cells.new a b ≡ (if a == r then T.Cell.nought else low T.Cell.nought cells.old a b) }
{
    let base = rows(r);
    cells[base..base + r + 1].fill_with(|| T::zero());
}

// Column r becomes zero in the rows past r, up to row n. By number, since its cells lie at uneven distances.
fn wipe_column<T: Cell>(cells: &mut [T], n: usize, r: usize)
    requires rows { HasRows (length cells.old) (suc n) }
    requires rank { r ≤ n }
    ensures { (a b : ℕ) → b ≤ a → low T.Cell.nought cells.new a b ≡ (if nat_lt r a && (nat_lt a (n + 1) && b == r) then T.Cell.nought else low T.Cell.nought cells.old a b) }
{
    for k in r + 1..n + 1 {
        cells[rows(k) + r] = T::zero();
    }
}

// The cells of rank r become zero, up to row n.
fn wipe<T: Cell>(cells: &mut [T], n: usize, r: usize)
    requires rows { HasRows (length cells.old) (suc n) }
    requires rank { r ≤ n }
    ensures { (a b : ℕ) → cell T.Cell.nought cells.new a b ≡ wiped T.Cell.nought n r (cell T.Cell.nought cells.old) a b }
{
    wipe_row(cells, r);
    wipe_column(cells, n, r);
}

// Copies row i + 1 into row i, passing over column r of row i + 1.
fn sink_row<T: Cell>(cells: &mut [T], i: usize, r: usize)
    requires rows { HasRows (length cells.old) (suc (suc i)) }
    requires rank { r ≤ i }
    ensures { (a b : ℕ) → b ≤ a → low T.Cell.nought cells.new a b ≡ (if a == i then low T.Cell.nought cells.old (i + 1) (jump r b) else low T.Cell.nought cells.old a b) }
{
    let (above, next) = cells.split_at_mut(rows(i + 1));
    let row = &mut above[rows(i)..];
    row[..r].copy_from_slice(&next[..r]);
    row[r..].copy_from_slice(&next[r + 1..i + 2]);
}

// Moves the rows past r up by one row, each passing over column r. By number, as in `lift`.
fn sink<T: Cell>(cells: &mut [T], n: usize, r: usize)
    requires rows { HasRows (length cells.old) n }
    requires rank { r < n }
    ensures { (a b : ℕ) → b ≤ a → low T.Cell.nought cells.new a b ≡ (if nat_le r a && nat_lt a (n - 1) then low T.Cell.nought cells.old (a + 1) (jump r b) else low T.Cell.nought cells.old a b) }
{
    for i in r..n - 1 {
        sink_row(cells, i, r);
    }
}

// Whether rank r can be opened among n ranks in that many places.
fn can_open(len: usize, n: usize, r: usize) -> bool
    ensures { result ≡ openable len n r }
{
    n < RANKS && has_rows(len, n + 1) && r <= n
}

// Whether there is a rank r among n ranks in that many places.
fn can_close(len: usize, n: usize, r: usize) -> bool
    ensures { result ≡ closable len n r }
{
    has_rows(len, n) && r < n
}

// Makes space for a new rank r among n ranks: first the moves, then the zeros. Without a row for it: refused.
pub fn open_rank<T: Cell>(cells: &mut [T], n: usize, r: usize) -> Result<(), Fault>
    ensures answer { result ≡ (if openable (length cells.old) n r then Ok tt else Err TableFull) }
    ensures matrix { (a b : ℕ) → cell T.Cell.nought cells.new a b ≡ opened_in T.Cell.nought (length cells.old) n r (cell T.Cell.nought cells.old) a b }
    ensures list { (p : ℕ) → length cells.old ≡ tri p → cells.new ≡ rows_of p (opened_in T.Cell.nought (length cells.old) n r (cell T.Cell.nought cells.old)) }
    ensures refused { openable (length cells.old) n r ≡ false → cells.new ≡ cells.old }
{
    if !can_open(cells.len(), n, r) {
        return Err(Fault::TableFull);
    }
    lift(cells, n, r);
    wipe(cells, n, r);
    Ok(())
}

// Takes rank r out of n ranks; the last row becomes zero. Without such a rank: refused.
pub fn close_rank<T: Cell>(cells: &mut [T], n: usize, r: usize) -> Result<(), Fault>
    ensures answer { result ≡ (if closable (length cells.old) n r then Ok tt else Err RecordAbsent) }
    ensures matrix { (a b : ℕ) → cell T.Cell.nought cells.new a b ≡ closed_in T.Cell.nought (length cells.old) n r (cell T.Cell.nought cells.old) a b }
    ensures list { (p : ℕ) → length cells.old ≡ tri p → cells.new ≡ rows_of p (closed_in T.Cell.nought (length cells.old) n r (cell T.Cell.nought cells.old)) }
    ensures refused { closable (length cells.old) n r ≡ false → cells.new ≡ cells.old }
{
    if !can_close(cells.len(), n, r) {
        return Err(Fault::RecordAbsent);
    }
    sink(cells, n, r);
    wipe_row(cells, n - 1);
    Ok(())
}
