// Times the storage: inserts in random order into an ordered table, and ranks opened and closed in a full triangle.
// Its arguments are `inserts` or `ranks`, how many, and how often. It prints a sum over what it made, and the time to standard error.
#![tactic(auto)]

ghost use Rattle.std.specs.Prelude.{refl};
ghost use Rattle.std.proofs.lemmas.Cmp.{nat_cmp_total, on_total};
ghost use Rattle.storagebench.specs.Samples.{row_order, bare_row, zero_value, is_zero};
ghost use Rattle.storagebench.specs.declared.Row.{Row};

use std::alloc::{AllocError, Global};
use std::cmp::Ordering;
use std::env;
use std::time::Instant;
use tables::table::{Record, blank_rows, put_in};
use triangle::cell::{Cell, triangle_places};
use triangle::moves::{close_rank, open_rank};

// A record of 64 bytes, about as long as a line's fields.
#[derive(Clone, Copy)]
struct Row {
    code: u64,
    fields: [u64; 7],
}

impl Record for Row {
    ghost order = { row_order };

    ghost bare = { bare_row };

    ghost lawful = { on_total (λ (x : Row). x.code) nat_cmp_total };

    fn compare(&self, other: &Row) -> Ordering {
        self.code.cmp(&other.code)
    }

    fn blank() -> Row {
        Row {
            code: 0,
            fields: [0; 7],
        }
    }
}

// A decimal number: sign, digits and exponent.
#[derive(Clone, Copy)]
struct Value {
    mantissa: u64,
    exponent: i8,
    negative: bool,
}

impl Cell for Value {
    ghost nought = { zero_value };

    ghost is_nought = { is_zero };

    ghost void = { refl };

    fn zero() -> Value {
        Value {
            mantissa: 0,
            exponent: 0,
            negative: false,
        }
    }

    fn is_zero(&self) -> bool {
        self.mantissa == 0
    }
}

// The next of a run of numbers without order.
fn scatter(x: u64) -> u64 {
    let a = x ^ x << 13;
    let b = a ^ a >> 7;
    b ^ b << 17
}

// Puts n records in random order into an empty table of n places: how many are in it then.
fn insert_all(rows: &mut [Row], n: usize) -> usize {
    blank_rows(rows);
    let mut used = 0;
    let mut x = 88172645463325252u64;
    for _ in 0..n {
        x = scatter(x);
        let row = Row {
            code: x,
            fields: [x; 7],
        };
        if let Ok(more) = put_in(rows, used, row) {
            used = more;
        }
    }
    used
}

fn row_sum(rows: &[Row]) -> u64 {
    rows.iter().enumerate().fold(0u64, |sum, (i, r)| {
        sum.wrapping_add(r.code.wrapping_mul(i as u64))
            .wrapping_add(r.fields[6])
    })
}

fn inserts(rt: &HostRuntime, n: usize, times: usize) -> anyhow::Result<()> {
    let mut rows: Vec<Row> = vec![in rt.alloc(); Row::blank(); n]?;
    let start = Instant::now(rt)?;
    let mut used = 0;
    for _ in 0..times {
        used = insert_all(rows.as_mut_slice(), n);
    }
    let nanos = start.elapsed(rt)?.as_nanos();
    let sum = row_sum(rows.as_slice());
    println!(rt; "{used} records, sum {sum}")?;
    eprintln!(rt; "{nanos}")?;
    Ok(())
}

// Closes ranks of a full triangle of n ranks, and opens each again: how many calls were granted.
fn turn_ranks(cells: &mut [Value], n: usize, times: usize) -> usize {
    let mut granted = 0usize;
    for k in 0..times {
        let r = if n == 0 { 0 } else { k.wrapping_mul(577) % n };
        if close_rank(cells, n, r).is_ok() {
            granted = granted.wrapping_add(1);
        }
        if n > 0 && open_rank(cells, n - 1, r).is_ok() {
            granted = granted.wrapping_add(1);
        }
    }
    granted
}

fn fill_cells(cells: &mut [Value]) {
    let mut x = 88172645463325252u64;
    for cell in cells {
        x = scatter(x);
        *cell = Value {
            mantissa: x >> 8,
            exponent: 3,
            negative: x & 1 == 1,
        };
    }
}

fn cell_sum(cells: &[Value]) -> u64 {
    cells.iter().enumerate().fold(0u64, |sum, (i, c)| {
        sum.wrapping_add(c.mantissa.wrapping_mul(i as u64))
    })
}

fn ranks(rt: &HostRuntime, n: usize, times: usize) -> anyhow::Result<()> {
    let places = triangle_places(n).unwrap_or(0);
    let mut cells: Vec<Value> = vec![in rt.alloc(); Value::zero(); places]?;
    fill_cells(cells.as_mut_slice());
    let start = Instant::now(rt)?;
    let granted = turn_ranks(cells.as_mut_slice(), n, times);
    let nanos = start.elapsed(rt)?.as_nanos();
    let sum = cell_sum(cells.as_slice());
    println!(rt; "{granted} ranks turned, sum {sum}")?;
    eprintln!(rt; "{nanos}")?;
    Ok(())
}

// What is timed.
#[derive(Clone, Copy)]
enum Job {
    Inserts,
    Ranks,
}

// The job that a word names.
fn job_of(word: &str) -> Option<Job> {
    match word {
        "inserts" => Some(Job::Inserts),
        "ranks" => Some(Job::Ranks),
        _ => None,
    }
}

// The number that a word says, 0 for no word.
fn number_of(word: Option<&String>) -> anyhow::Result<usize> {
    match word {
        Some(word) => Ok(word.as_str().parse::<usize>()?),
        None => Ok(0),
    }
}

fn run(rt: &HostRuntime) -> anyhow::Result<()> {
    let words: Vec<String> = env::args(rt)?.collect(rt.alloc())?;
    let job = words.iter().filter_map(|word| job_of(word.as_str())).last();
    let mut numbers = words
        .iter()
        .skip_while(|word| job_of(word.as_str()).is_none())
        .filter(|word| job_of(word.as_str()).is_none());
    let n = number_of(numbers.next())?;
    let times = number_of(numbers.next())?;
    match job {
        Some(Job::Inserts) => inserts(rt, n, times),
        Some(Job::Ranks) | None => ranks(rt, n, times),
    }
}

fn main(rt: HostRuntime) -> anyhow::Result<()> {
    run(&rt)
}
