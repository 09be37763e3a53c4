// The laws of the ordered table, for every kind of record. Each function does nothing: its contract is the law.
ghost use Rattle.tables.specs.Laws.{SearchLaw, PutLaw, DropLaw, BackLaw, LaidLaw};

use crate::table::Record;

// Where the keys rise, the search finds the record of a key, or the place between the smaller keys and the greater ones.
pub fn search_law<R: Record>()
    ensures { SearchLaw R R.Record.order }
{}

// After a put a list has just the new record and the old ones of other keys, in order.
pub fn put_law<R: Record>()
    ensures { PutLaw R R.Record.order }
{}

// After a drop a list has just the records of other keys, in order.
pub fn drop_law<R: Record>()
    ensures { DropLaw R R.Record.order }
{}

// A record of a new key put and dropped again leaves the list as it was.
pub fn back_law<R: Record>()
    ensures { BackLaw R R.Record.order }
{}

// Rows that are records in order and then blanks stay so, and a call on the rows is the edit of the list.
pub fn laid_law<R: Record>()
    ensures { LaidLaw R R.Record.order R.Record.bare }
{}
