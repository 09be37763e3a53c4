// The fair copy of what the register holds, written to a medium.
ghost use Rattle.std.specs.Prelude.{◌≡◌, ◌≤◌, take, Some};
ghost use Rattle.copies.specs.Writes.{Writes as Copies};
ghost use Rattle.model.specs.Edits.{unplaced, with_head};
ghost use Rattle.model.specs.Steps.{shown};
ghost use Rattle.register.specs.Views.{view};
ghost use Rattle.register.specs.Writing.{Writes};
ghost use Rattle.tables.specs.Rows.{used_rows};
ghost use Rattle.triangle.specs.Triangle.{tri};

use crate::calls::is_own;
use crate::lent::{Register, Tables};
use copies::copy::write_copy;
use copies::handed::Records;
use decimals::number::Number;
use headings::headers::Head;
use media::{Full, Medium, Source};
use refusals::Fault;
use triangle::cell::triangle_places;

// The rows that are used.
fn used_rows<R>(rows: &[R], used: usize) -> &[R]
    ensures { result.now ≡ used_rows used rows.now }
{
    &rows[0..used.min(rows.len())]
}

// The cells of the ranks that are used; where they are more than a register may have, all of them.
fn used_cells(cells: &[Number], ranks: usize) -> &[Number]
    ensures { ranks ≤ 2000 → result.now ≡ take (tri ranks) cells.now }
{
    match triangle_places(ranks) {
        Some(n) => &cells[0..n.min(cells.len())],
        None => cells,
    }
}

// The fair copy of the used places under this head.
fn write_used<M: Medium>(
    register: &Register,
    tables: &Tables,
    medium: &mut M,
    head: &Head,
) -> Result<(), Full>
    ensures copies { register.now.used.estimates ≤ 2000 → Copies (M.Source.content medium.old) (M.Medium.room medium.old) head.now (with_head (shown (view register.now tables.now)) (Some head.now)) result (M.Source.content medium.new) (M.Medium.room medium.new) }
    ensures kept { M.Medium.room medium.new ≡ M.Medium.room medium.old }
{
    let used = register.used;
    let records = Records {
        sites: used_rows(tables.sites, used.sites),
        spans: used_rows(tables.spans, used.spans),
        estimates: used_rows(tables.estimates, used.estimates),
        aprioris: used_rows(tables.aprioris, used.aprioris),
        cells: used_cells(tables.cells, used.estimates),
    };
    write_copy(medium, head, &records)
}

// The fair copy of what the register holds.
pub(crate) fn write_held<M: Medium>(
    register: &Register,
    tables: &Tables,
    medium: &mut M,
) -> Result<(), Fault>
    ensures writes { Writes (view register.now tables.now) (M.Source.content medium.old) (M.Medium.room medium.old) (unplaced result) (M.Source.content medium.new) }
    ensures kept { M.Medium.room medium.new ≡ M.Medium.room medium.old }
{
    if !is_own(register, tables) {
        return Err(Fault::TableLengths);
    }
    let head = register.head.ok_or(Fault::NoHead)?;
    write_used(register, tables, medium, &head)?;
    Ok(())
}
