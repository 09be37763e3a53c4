// The calls of the register. Each is handed the tables; with tables of other lengths than it was made over it refuses, and
// a refusal changes neither the register nor the tables.
ghost use Rattle.model.specs.Edits.{Put, Drop, SetHead, SetCell, outcome, put_line, drop_line, estimate_named, head_named, unplaced};
ghost use Rattle.model.specs.States.{Obeys, allowed, own, triangular};
ghost use Rattle.record_laws.specs.Valid.{Printable};
ghost use Rattle.register.specs.Views.{view, Step, SameSlices};
ghost use Rattle.register.specs.Making.{Makes, blanked};
ghost use Rattle.register.specs.Writing.{Writes};
ghost use Rattle.std.specs.Prelude.{◌≡◌};

use crate::edits::{
    drop_apriori, drop_estimate, drop_site, drop_span, put_apriori, put_estimate, put_site,
    put_span, set_cell_of,
};
use crate::handed::{cell_number, data_line, header_line};
use crate::lent::{Register, Tables};
use crate::writing::write_held;
use codes::letters::MatrixKind;
use decimals::number::Number;
use headings::headers::{Head, read_edited_header};
use media::{Medium, Source};
use model::counts::{Counts, Sort};
use records::parameters::{Parameter, read_parameter, read_parameter_key};
use records::sites::{read_site, read_site_key};
use records::spans::{read_span, read_span_key};
use refusals::{Fault, Refusal};
use tables::table::blank_rows;
use triangle::cell::{Cell, triangle_places};
use triangle::row::clear_row;

// No record of any sort.
const NONE: Counts = Counts {
    sites: 0,
    spans: 0,
    estimates: 0,
    aprioris: 0,
};

// Whether the tables have the lengths that the register was made over.
pub(crate) fn is_own(register: &Register, tables: &Tables) -> bool
    ensures { result ≡ own (view register.now tables.now) }
{
    let places = register.places;
    tables.sites.len() == places.sites
        && tables.spans.len() == places.spans
        && tables.estimates.len() == places.estimates
        && tables.aprioris.len() == places.aprioris
        && fits_triangle(places.estimates, tables.cells.len())
        && tables.row.len() == places.estimates
}

// Whether a triangle over so many estimates has just that many places.
fn fits_triangle(estimates: usize, cells: usize) -> bool
    ensures { result ≡ triangular estimates cells }
{
    triangle_places(estimates) == Some(cells)
}

// Whether a register may be made over so many places.
fn is_allowed(places: &Counts) -> bool
    ensures { result ≡ allowed places.now }
{
    places.sites <= 1000
        && places.spans <= 2000
        && places.estimates <= 2000
        && places.aprioris <= 2000
}

// The record of a data line's 80 columns, put. The sort is what the caller hands in, and each has a record of its own type.
fn put_line(
    register: &mut Register,
    tables: &mut Tables,
    sort: Sort,
    line: &[u8; 80],
) -> Result<(), Fault>
    requires { Printable line.now }
    ensures { Step (λ P s. put_line sort P s line.now) register.old tables.old result register.new tables.new }
{
    match sort {
        Sort::Site => put_site(register, tables, read_site(line)?),
        Sort::Span => put_span(register, tables, read_span(line)?),
        Sort::Estimate => put_estimate(register, tables, read_parameter(line)?),
        Sort::Apriori => put_apriori(register, tables, read_parameter(line)?),
    }
}

// The record that a data line's 80 columns name, dropped.
fn drop_line(
    register: &mut Register,
    tables: &mut Tables,
    sort: Sort,
    line: &[u8; 80],
) -> Result<(), Fault>
    ensures { Step (λ P s. drop_line sort s line.now) register.old tables.old result register.new tables.new }
{
    match sort {
        Sort::Site => drop_site(register, tables, &read_site_key(line)?),
        Sort::Span => drop_span(register, tables, &read_span_key(line)?),
        Sort::Estimate => drop_estimate(register, tables, &read_parameter_key(line)?),
        Sort::Apriori => drop_apriori(register, tables, &read_parameter_key(line)?),
    }
}

// A put and a drop differ in the step that they run, and in what it needs of the line: a printable one is put.
fn put_bytes(
    register: &mut Register,
    tables: &mut Tables,
    sort: Sort,
    bytes: &[u8],
) -> Result<(), Fault>
    ensures obeys { Obeys (Put sort bytes.now) (view register.old tables.old) (unplaced result) (view register.new tables.new) }
    ensures slices { SameSlices tables.old tables.new }
{
    if !is_own(register, tables) {
        return Err(Fault::TableLengths);
    }
    let line = data_line(bytes)?;
    put_line(register, tables, sort, &line)
}

fn drop_bytes(
    register: &mut Register,
    tables: &mut Tables,
    sort: Sort,
    bytes: &[u8],
) -> Result<(), Fault>
    ensures obeys { Obeys (Drop sort bytes.now) (view register.old tables.old) (unplaced result) (view register.new tables.new) }
    ensures slices { SameSlices tables.old tables.new }
{
    if !is_own(register, tables) {
        return Err(Fault::TableLengths);
    }
    let line = data_line(bytes)?;
    drop_line(register, tables, sort, &line)
}

fn head_of(bytes: &[u8], kind: MatrixKind) -> Result<Head, Fault>
    ensures { result ≡ head_named bytes.now kind }
{
    let line = header_line(bytes)?;
    let header = read_edited_header(&line)?;
    Ok(Head { header, kind })
}

fn head_bytes(
    register: &mut Register,
    tables: &Tables,
    bytes: &[u8],
    kind: MatrixKind,
) -> Result<(), Fault>
    ensures { Obeys (SetHead bytes.now kind) (view register.old tables.now) (unplaced result) (view register.new tables.now) }
{
    if !is_own(register, tables) {
        return Err(Fault::TableLengths);
    }
    register.head = Some(head_of(bytes, kind)?);
    Ok(())
}

// The estimate whose key a line names.
fn named_estimate(bytes: &[u8]) -> Result<Parameter, Fault>
    ensures { result ≡ estimate_named bytes.now }
{
    let line = data_line(bytes)?;
    read_parameter_key(&line)
}

fn cell_bytes(
    register: &Register,
    tables: &mut Tables,
    first: &[u8],
    second: &[u8],
    text: &[u8],
) -> Result<(), Fault>
    ensures obeys { Obeys (SetCell first.now second.now text.now) (view register.now tables.old) (unplaced result) (view register.now tables.new) }
    ensures slices { SameSlices tables.old tables.new }
{
    if !is_own(register, tables) {
        return Err(Fault::TableLengths);
    }
    set_cell_named(register, tables, first, second, text)
}

// The cell of the estimates that two lines name, set to the number of a text.
fn set_cell_named(
    register: &Register,
    tables: &mut Tables,
    first: &[u8],
    second: &[u8],
    text: &[u8],
) -> Result<(), Fault>
    ensures { Step (λ P s. outcome P s (SetCell first.now second.now text.now)) register.now tables.old result register.now tables.new }
{
    let one = named_estimate(first)?;
    let other = named_estimate(second)?;
    let value = cell_number(text)?;
    set_cell_of(register, tables, &one, &other, value)
}

// Blanks every place of the tables.
fn blank_tables(tables: &mut Tables)
    ensures blank { (g : Register) → view g tables.new ≡ blanked (view g tables.old) }
    ensures slices { SameSlices tables.old tables.new }
{
    blank_rows(tables.sites);
    blank_rows(tables.spans);
    blank_rows(tables.estimates);
    blank_rows(tables.aprioris);
    tables.cells.fill(<Number as Cell>::zero());
    clear_row(tables.row);
}

impl Register {
    // A register over these tables, which are made blank. Where they break a limit: refused, and they stay as they are.
    pub fn make(tables: &mut Tables) -> Result<Register, Refusal>
        ensures { Makes tables.old result tables.new }
    {
        let places = Counts {
            sites: tables.sites.len(),
            spans: tables.spans.len(),
            estimates: tables.estimates.len(),
            aprioris: tables.aprioris.len(),
        };
        let register = Register {
            places,
            used: NONE,
            head: None,
        };
        if !is_allowed(&places) || !is_own(&register, tables) {
            return Err(Fault::TableLengths.into());
        }
        blank_tables(tables);
        Ok(register)
    }

    // Sets the head by a header line and a matrix kind. The columns of the count are not looked at.
    pub fn set_head(
        &mut self,
        tables: &Tables,
        line: &[u8],
        kind: MatrixKind,
    ) -> Result<(), Refusal>
        ensures { Obeys (SetHead line.now kind) (view self.old tables.now) result (view self.new tables.now) }
    {
        Ok(head_bytes(self, tables, line, kind)?)
    }

    // Puts a record, given as a data line of its block, whose index is not looked at: it takes the place of the record of its key,
    // or is new.
    pub fn put_record(
        &mut self,
        tables: &mut Tables,
        sort: Sort,
        line: &[u8],
    ) -> Result<(), Refusal>
        ensures obeys { Obeys (Put sort line.now) (view self.old tables.old) result (view self.new tables.new) }
        ensures slices { SameSlices tables.old tables.new }
    {
        Ok(put_bytes(self, tables, sort, line)?)
    }

    // Drops the record whose key a data line names; only the columns of the key are looked at.
    pub fn drop_record(
        &mut self,
        tables: &mut Tables,
        sort: Sort,
        line: &[u8],
    ) -> Result<(), Refusal>
        ensures obeys { Obeys (Drop sort line.now) (view self.old tables.old) result (view self.new tables.new) }
        ensures slices { SameSlices tables.old tables.new }
    {
        Ok(drop_bytes(self, tables, sort, line)?)
    }

    // Sets the cell of two estimates, whose keys data lines name, in either order. Zero clears it.
    pub fn set_cell(
        &self,
        tables: &mut Tables,
        first: &[u8],
        second: &[u8],
        text: &[u8],
    ) -> Result<(), Refusal>
        ensures obeys { Obeys (SetCell first.now second.now text.now) (view self.now tables.old) result (view self.now tables.new) }
        ensures slices { SameSlices tables.old tables.new }
    {
        Ok(cell_bytes(self, tables, first, second, text)?)
    }

    // Writes the fair copy to the medium, in place of what it holds.
    pub fn write<M: Medium>(&self, tables: &Tables, medium: &mut M) -> Result<(), Refusal>
        ensures writes { Writes (view self.now tables.now) (M.Source.content medium.old) (M.Medium.room medium.old) result (M.Source.content medium.new) }
        ensures kept { M.Medium.room medium.new ≡ M.Medium.room medium.old }
    {
        Ok(write_held(self, tables, medium)?)
    }

    // How many records of each sort the register holds.
    pub fn counts(&self) -> Counts
        ensures { result ≡ self.now.used }
    {
        self.used
    }
}
