// Replays a worksheet of edits: reads it on standard input, performs its commands on a new register with the largest tables that
// a register may have, and prints the answers and what the register then holds.
#![tactic(auto)]

use decimals::number::Number;
use frame::walk::LONGEST;
use records::parameters::Parameter;
use records::sites::Site;
use records::spans::Span;
use refusals::{Fault, Refusal};
use register::lent::Tables;
use reports::refusal::refusal_line;
use std::alloc::{AllocError, Global};
use std::io;
use std::io::{Read, Write};
use tables::table::Record;
use triangle::cell::Cell;
use worksheets::sheets::sheet_report;

const SITES: usize = 1_000;

const SPANS: usize = 2_000;

const ESTIMATES: usize = 2_000;

const APRIORIS: usize = 2_000;

const CELLS: usize = 2_001_000;

// The memory that is lent to the register.
#[derive(Drop)]
struct Store {
    sites: Vec<Site>,
    spans: Vec<Span>,
    estimates: Vec<Parameter>,
    aprioris: Vec<Parameter>,
    cells: Vec<Number>,
    row: Vec<u32>,
}

impl Store {
    fn new(heap: Global) -> Result<Store, AllocError> {
        Ok(Store {
            sites: vec![in heap; Site::blank(); SITES]?,
            spans: vec![in heap; Span::blank(); SPANS]?,
            estimates: vec![in heap; Parameter::blank(); ESTIMATES]?,
            aprioris: vec![in heap; Parameter::blank(); APRIORIS]?,
            cells: vec![in heap; Number::zero(); CELLS]?,
            row: vec![in heap; 0; ESTIMATES]?,
        })
    }

    // The tables, as they are lent to the register.
    fn tables(&mut self) -> Tables<'_> {
        Tables {
            sites: &mut self.sites,
            spans: &mut self.spans,
            estimates: &mut self.estimates,
            aprioris: &mut self.aprioris,
            cells: &mut self.cells,
            row: &mut self.row,
        }
    }
}

fn main(rt: HostRuntime) -> io::Result<()> {
    let mut sheet = Vec::new(rt.alloc());
    // one byte more than a worksheet may have, so that a longer one is seen to be too long
    rt.stdin().take(LONGEST as u64 + 1).read_to_end(&mut sheet)?;
    if sheet.len() > LONGEST {
        let fault = Fault::SourceTooLong;
        return rt
            .stdout()
            .write_all(&refusal_line(Refusal { fault, line: 0 }));
    }
    let mut store = Store::new(rt.alloc())?;
    rt.stdout()
        .write_all(&sheet_report(rt.alloc(), &mut store.tables(), &sheet)?)
}
