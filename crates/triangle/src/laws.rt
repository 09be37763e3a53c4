// The laws of the triangle and of the working row, for every kind of cell and of record. Each function does nothing: its contract is the law.
ghost use Rattle.triangle.specs.Files.{EachStands, OthersStay, ByIndex, Renumbered, RanksApart, RanksFound, FillApart};
ghost use Rattle.triangle.specs.Laws.{Places, Moved, Opened, Closed, Undone, Pinned};

use crate::cell::Cell;
use tables::table::Record;

// The places of cells: one place for one unordered pair of ranks, inside the slice.
pub fn places_law()
    ensures { Places }
{}

// The moves of an opening bring every cell between two old ranks to its new place.
pub fn moves_law<T: Cell>()
    ensures { Moved T }
{}

// An opened rank has zero cells; the others keep theirs under the shifted ranks, and all past the last row stays zero.
pub fn opening_law<T: Cell>()
    ensures { Opened T T.Cell.nought }
{}

// When a rank is closed the others keep their cells under the shifted ranks, and all past the last row is zero.
pub fn closing_law<T: Cell>()
    ensures { Closed T T.Cell.nought }
{}

// A rank opened and closed again leaves the matrix as it was.
pub fn undoing_law<T: Cell>()
    ensures { Undone T T.Cell.nought }
{}

// The cells fix the slice.
pub fn pinned_law<T: Cell>()
    ensures { Pinned T T.Cell.nought }
{}

// Where all elements of a file may be stated, each that is not zero stands at the ranks of its row and column; cells that none states stay;
// and by the file's own indices each cell has what an element states for it, in whatever order the elements stand.
pub fn stating_law<T: Cell>()
    ensures each { EachStands T T.Cell.is_nought }
    ensures others { OthersStay T T.Cell.is_nought }
    ensures indices { ByIndex T T.Cell.is_nought }
    ensures renumbered { Renumbered }
{}

// The working row has for each record the rank of the table's record of its key, so records of different keys have different ranks.
pub fn ranks_law<R: Record>()
    ensures found { RanksFound R R.Record.order }
    ensures apart { RanksApart R R.Record.order }
    ensures filled { FillApart R R.Record.order }
{}
