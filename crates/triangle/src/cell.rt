// The places of a triangle, and its cells by two ranks. Ranks count from 0.
ghost use Rattle.std.specs.Prelude.{◌≡◌, ℕ, ◌≤◌, max, Bool, true, ◌&&◌, length, if◌then◌else◌, Some, None, Ok, Err, nat_le, slice_set, refl};
ghost use Rattle.refusals.specs.declared.Fault.TheVariants.{WrongCell};
ghost use Rattle.decimals.specs.Number.{zero_number};
ghost use Rattle.triangle.specs.Triangle.{tri, spot, cell, same, holds, seen, is_zero_number};

use decimals::number::Number;
use refusals::Fault;

// How many ranks a triangle may have.
pub const RANKS: usize = 2000;

// What stands in a cell: a value that may be zero.
pub trait Cell: Copy {
    ghost nought: { Self };

    ghost is_nought: { Self → Bool };

    // The zero that an unstated cell has.
    fn zero() -> Self
        ensures { result ≡ nought };

    // Whether the value is zero.
    fn is_zero(&self) -> bool
        ensures { result ≡ is_nought self.now };

    ghost void: { is_nought nought ≡ true };
}

// A decimal number in a cell.
impl Cell for Number {
    ghost nought = { zero_number };

    ghost is_nought = { is_zero_number };

    ghost void = { refl };

    fn zero() -> Number {
        Number {
            mantissa: 0,
            exponent: 0,
            negative: false,
        }
    }

    fn is_zero(&self) -> bool {
        self.mantissa == 0
    }
}

// How many places i rows take.
pub(crate) fn rows(i: usize) -> usize
    requires { i ≤ 2000 }
    ensures count { result ≡ tri i }
    ensures bound { result ≤ 2001000 }
{
    i * (i + 1) / 2
}

// The place of the cell of i and j, in either order.
fn place(i: usize, j: usize) -> usize
    requires { max i j ≤ 2000 }
    ensures { result ≡ spot i j }
{
    if i < j { rows(j) + i } else { rows(i) + j }
}

// How many places a triangle of that many ranks has, where so many are allowed.
pub fn triangle_places(ranks: usize) -> Option<usize>
    ensures { result ≡ (if nat_le ranks 2000 then Some (tri ranks) else None) }
{
    if ranks <= RANKS {
        Some(rows(ranks))
    } else {
        None
    }
}

// Whether n rows are allowed, and fit that many places.
pub(crate) fn has_rows(len: usize, n: usize) -> bool
    ensures { result ≡ holds len n }
{
    n <= RANKS && rows(n) <= len
}

// The place of the cell of i and j among len places, in either order; none outside the triangle.
fn cell_place(len: usize, i: usize, j: usize) -> Option<usize>
    ensures { result ≡ (if seen len i j then Some (spot i j) else None) }
{
    if i.max(j) >= RANKS {
        return None;
    }
    let k = place(i, j);
    if k < len { Some(k) } else { None }
}

// The cell of i and j, in either order; none outside the triangle.
pub fn get_cell<T: Cell>(cells: &[T], i: usize, j: usize) -> Option<T>
    ensures { result ≡ (if seen (length cells.now) i j then Some (cell T.Cell.nought cells.now i j) else None) }
{
    let k = cell_place(cells.len(), i, j)?;
    Some(cells[k])
}

// Sets the cell of i and j, in either order; refused outside the triangle.
pub fn set_cell<T: Cell>(cells: &mut [T], i: usize, j: usize, v: T) -> Result<(), Fault>
    ensures answer { result ≡ (if seen (length cells.old) i j then Ok tt else Err WrongCell) }
    ensures list { cells.new ≡ (if seen (length cells.old) i j then slice_set cells.old (spot i j) v else cells.old) }
    ensures matrix { (a b : ℕ) → cell T.Cell.nought cells.new a b ≡ (if seen (length cells.old) i j && same i j a b then v else cell T.Cell.nought cells.old a b) }
{
    let k = cell_place(cells.len(), i, j).ok_or(Fault::WrongCell)?;
    cells[k] = v;
    Ok(())
}
