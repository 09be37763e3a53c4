// How long a fair copy is: found without writing it.
ghost use Rattle.std.specs.Prelude.{◌≡◌, ◌≤◌, length, None};
ghost use Rattle.copies.specs.Lengths.{nonzero};
ghost use Rattle.copies.specs.Measures.{countable, measured, solution_by};

use crate::handed::Records;
use crate::letters::contents_of;
use decimals::number::Number;
use triangle::cell::Cell;

// No list of records is longer where its fair copy is written.
pub const LONGEST: usize = 1_000_000_000;

// How many of the cells are not zero.
fn count_nonzero(cells: &[Number]) -> usize
    ensures count { result ≡ nonzero cells.now }
    ensures within { result ≤ length cells.now }
{
    let mut count = 0;
    for v in cells {
        if !v.is_zero() {
            count += 1;
        }
    }
    count
}

// Whether there are few enough records and cells to count the bytes of their copy.
fn is_countable(r: &Records) -> bool
    ensures { result ≡ countable (solution_by None r.now) }
{
    r.sites.len() <= LONGEST
        && r.spans.len() <= LONGEST
        && r.estimates.len() <= LONGEST
        && r.aprioris.len() <= LONGEST
        && r.cells.len() <= LONGEST
}

// The bytes of the fair copy of these records, whatever their head; none where they are too many to count.
pub fn copy_length(r: &Records) -> Option<usize>
    ensures { result ≡ measured (solution_by None r.now) }
{
    if !is_countable(r) {
        return None;
    }
    let letters = contents_of(r.estimates).count;
    let parameters = r.estimates.len() + r.aprioris.len();
    let cells = count_nonzero(r.cells);
    Some(268 + 2 * letters + 76 * r.sites.len() + 55 * r.spans.len() + 81 * parameters + 35 * cells)
}
