// One ordered table over a lent slice, for every kind of record whose key has a total order.
// The public functions take rows and how many are used apart: a caller lends one of several tables at each call.
ghost use Rattle.std.specs.Prelude.{◌≡◌, ◌+◌, ◌-◌, ◌<◌, ◌≤◌, [], ◌∷◌, ◌++◌, length, take, replicate, slice_index_or, slice_set};
ghost use Rattle.std.specs.declared.cmp.Ordering.{Ordering};
ghost use Rattle.std.specs.Cmp.{IsTotalOrder};
ghost use Rattle.std.specs.List.{copy_within, insert, remove};
ghost use Rattle.std.specs.List.Sorted.{IsSearchInRange};
ghost use Rattle.std.specs.Result.{result_unwrap_or};
ghost use Rattle.tables.specs.Keys.{Rising};
ghost use Rattle.tables.specs.Lists.{place};
ghost use Rattle.tables.specs.Laws.{PutSorted, DropSorted};
ghost use Rattle.tables.specs.Rows.{sought, filled, known, used_rows, put_answer, put_rows, drop_answer, drop_rows, plain};

use refusals::Fault;
use std::cmp::Ordering;

// A record whose key has a total order, and the blank record that fills the unused places.
pub trait Record: Copy {
    ghost order: { Self → Self → Ordering };

    ghost bare: { Self };

    // Compares the keys.
    fn compare(&self, other: &Self) -> Ordering
        ensures { result ≡ order self.now other.now };

    // The blank record.
    fn blank() -> Self
        ensures { result ≡ bare };

    ghost lawful: { IsTotalOrder order };
}

// Where the record of r's key stands, or the place before which it would go. By hand: std's `binary_search_by` names its place only in rows in order.
fn seek<R: Record>(rows: &[R], r: &R) -> Result<usize, usize>
    ensures spot { result ≡ sought R.Record.order r.now rows.now }
    ensures within { IsSearchInRange result (length rows.now) }
{
    let mut low = 0;
    let mut high = rows.len();
    while low < high {
        let mid = low + (high - low) / 2;
        match rows[mid].compare(r) {
            Ordering::Less => low = mid + 1,
            Ordering::Equal => return Ok(mid),
            Ordering::Greater => high = mid,
        }
    }
    Err(low)
}

// Copies the record below place i into it. A function of its own, as `lower`: the compiler then makes one move of memory of a whole
// shift, which it was not seen to do of `copy_within`.
fn raise<R: Record>(part: &mut [R], i: usize)
    requires { (0 < i) × (i < length part.old) }
    ensures { (d : R) → part.new ≡ slice_set part.old i (slice_index_or part.old (i - 1) d) }
{
    part[i] = part[i - 1];
}

// Moves every record but the last up by one place; the first stands in its place too.
fn shift_up<R: Record>(part: &mut [R])
    requires { 0 < length part.old }
    ensures { part.new ≡ copy_within part.old 0 (length part.old - 1) 1 }
{
    for i in (1..part.len()).rev() {
        raise(part, i);
    }
}

// Copies the record above place i into it.
fn lower<R: Record>(part: &mut [R], i: usize)
    requires { i + 1 < length part.old }
    ensures { (d : R) → part.new ≡ slice_set part.old i (slice_index_or part.old (i + 1) d) }
{
    part[i] = part[i + 1];
}

// Moves every record but the first down by one place; the last stands in its place too.
fn shift_down<R: Record>(part: &mut [R])
    requires { 0 < length part.old }
    ensures { part.new ≡ copy_within part.old 1 (length part.old) 0 }
{
    for i in 0..part.len() - 1 {
        lower(part, i);
    }
}

// Puts r at place k; the rows from k on move up by one, and the last falls out.
fn insert<R: Record>(rows: &mut [R], k: usize, r: R)
    requires { k < length rows.old }
    ensures { rows.new ≡ insert (take (length rows.old - 1) rows.old) k r }
{
    let later = &mut rows[k..];
    shift_up(later);
    later[0] = r;
}

// Takes the row at place k away; the later ones move down by one, and the last place becomes blank.
fn remove<R: Record>(rows: &mut [R], k: usize)
    requires { k < length rows.old }
    ensures { rows.new ≡ remove rows.old k ++ (R.Record.bare ∷ []) }
{
    let later = &mut rows[k..];
    shift_down(later);
    later[later.len() - 1] = R::blank();
}

// Puts r among the used rows, in the place of the record of its key or as a new one: how many are then used.
fn put_row<R: Record>(rows: &mut [R], used: usize, r: R) -> Result<usize, Fault>
    ensures answer { result ≡ put_answer R.Record.order r used rows.old }
    ensures rows { rows.new ≡ put_rows R.Record.order r used rows.old }
{
    let used = used.min(rows.len());
    match seek(&rows[..used], &r) {
        Ok(k) => {
            rows[k] = r;
            Ok(used)
        }
        Err(k) => {
            if used < rows.len() {
                insert(&mut rows[..used + 1], k, r);
                Ok(used + 1)
            } else {
                Err(Fault::TableFull)
            }
        }
    }
}

// Takes the record of r's key away from the used rows: how many are then used.
fn drop_row<R: Record>(rows: &mut [R], used: usize, r: &R) -> Result<usize, Fault>
    ensures answer { result ≡ drop_answer R.Record.order r.now used rows.old }
    ensures rows { rows.new ≡ drop_rows R.Record.order R.Record.bare r.now used rows.old }
{
    let used = used.min(rows.len());
    match seek(&rows[..used], r) {
        Ok(k) => {
            remove(&mut rows[..used], k);
            Ok(used - 1)
        }
        Err(_) => Err(Fault::RecordAbsent),
    }
}

// Where the record of r's key stands among the used rows, or the place before which it would go. It looks at as many rows as a halving needs.
pub fn find_in<R: Record>(rows: &[R], used: usize, r: &R) -> Result<usize, usize>
    ensures spot { result ≡ sought R.Record.order r.now (used_rows used rows.now) }
    ensures within { IsSearchInRange result (filled used rows.now) }
    ensures sorted { used ≤ length rows.now → Rising R.Record.order (take used rows.now) → result ≡ place R.Record.order r.now (take used rows.now) }
{
    seek(&rows[..used.min(rows.len())], r)
}

// Whether the used rows have a record of r's key.
pub fn has_row<R: Record>(rows: &[R], used: usize, r: &R) -> bool
    ensures { result ≡ known R.Record.order r.now used rows.now }
{
    find_in(rows, used, r).is_ok()
}

// Makes every row blank.
pub fn blank_rows<R: Record>(rows: &mut [R])
    ensures { rows.new ≡ replicate (length rows.old) R.Record.bare }
{
    rows.fill_with(|| R::blank());
}

// The table: rows of which the first `used` hold records, in rising key order, and the others are blank.
#[derive(Drop)]
pub struct OrderedTable<'a, R> {
    rows: &'a mut [R],
    used: usize,
}

impl<'a, R: Record> OrderedTable<'a, R> {
    // The table over these rows.
    pub fn over(rows: &'a mut [R], used: usize) -> Self
        ensures used { result.used ≡ used }
        ensures rows { result.rows.now ≡ rows.old }
        ensures named { result.rows.ghost_name ≡ rows.entry.ghost_name }
    {
        OrderedTable { rows, used }
    }

    // How many rows are used.
    pub fn used(&self) -> usize
        ensures { result ≡ self.now.used }
    {
        self.used
    }

    // Where the record of r's key stands, or the place before which it would go.
    pub fn find(&self, r: &R) -> Result<usize, usize>
        ensures { result ≡ sought R.Record.order r.now (used_rows self.now.used self.now.rows.now) }
    {
        find_in(self.rows, self.used, r)
    }

    // Puts r in the place of the record of its key, or as a new one.
    pub fn put(&mut self, r: R) -> Result<(), Fault>
        ensures answer { result ≡ plain (put_answer R.Record.order r self.old.used self.old.rows.now) }
        ensures rows { self.new.rows.now ≡ put_rows R.Record.order r self.old.used self.old.rows.now }
        ensures used { self.new.used ≡ result_unwrap_or (put_answer R.Record.order r self.old.used self.old.rows.now) self.old.used }
        ensures named { self.new.rows.ghost_name ≡ self.old.rows.ghost_name }
    {
        let OrderedTable { rows, used } = self;
        *used = put_row(rows, *used, r)?;
        Ok(())
    }

    // Takes the record of r's key away.
    pub fn remove(&mut self, r: &R) -> Result<(), Fault>
        ensures answer { result ≡ plain (drop_answer R.Record.order r.now self.old.used self.old.rows.now) }
        ensures rows { self.new.rows.now ≡ drop_rows R.Record.order R.Record.bare r.now self.old.used self.old.rows.now }
        ensures used { self.new.used ≡ result_unwrap_or (drop_answer R.Record.order r.now self.old.used self.old.rows.now) self.old.used }
        ensures named { self.new.rows.ghost_name ≡ self.old.rows.ghost_name }
    {
        let OrderedTable { rows, used } = self;
        *used = drop_row(rows, *used, r)?;
        Ok(())
    }
}

// Puts r into the table over these rows: how many are used then. Full: refused.
pub fn put_in<R: Record>(rows: &mut [R], used: usize, r: R) -> Result<usize, Fault>
    ensures answer { result ≡ put_answer R.Record.order r used rows.old }
    ensures rows { rows.new ≡ put_rows R.Record.order r used rows.old }
    ensures sorted { used ≤ length rows.old → Rising R.Record.order (take used rows.old) → PutSorted R.Record.order r used rows.old rows.new result }
{
    let mut table = OrderedTable::over(rows, used);
    table.put(r)?;
    Ok(table.used())
}

// Drops the record of r's key from the table over these rows: how many are used then. Absent: refused.
pub fn drop_in<R: Record>(rows: &mut [R], used: usize, r: &R) -> Result<usize, Fault>
    ensures answer { result ≡ drop_answer R.Record.order r.now used rows.old }
    ensures rows { rows.new ≡ drop_rows R.Record.order R.Record.bare r.now used rows.old }
    ensures sorted { used ≤ length rows.old → Rising R.Record.order (take used rows.old) → DropSorted R.Record.order R.Record.bare r.now used rows.old rows.new result }
{
    let mut table = OrderedTable::over(rows, used);
    table.remove(r)?;
    Ok(table.used())
}
