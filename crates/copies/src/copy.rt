// Writing the fair copy of a solution to a medium.
ghost use Rattle.copies.specs.Appends.{Appends};
ghost use Rattle.copies.specs.Copy.{copy_lines};
ghost use Rattle.copies.specs.Measures.{countable, measured, solution_by, solution_of};
ghost use Rattle.copies.specs.Writes.{Writes, within};
ghost use Rattle.std.specs.Prelude.{◌≡◌, true, length, take, None};
ghost use Rattle.triangle.specs.Triangle.{tri};

use crate::handed::Records;
use crate::lengths::copy_length;
use crate::lines::{Body, append_block, append_header, matrix_title};
use headings::headers::Head;
use media::runs::append_line;
use media::{Full, Medium, Source};

// Whether the medium can hold the fair copy of these records.
fn has_room<M: Medium>(m: &M, r: &Records) -> bool
    ensures { result ≡ within (M.Medium.room m.now) (measured (solution_by None r.now)) }
{
    match copy_length(r) {
        Some(n) => n <= m.capacity(),
        None => false,
    }
}

// All lines, from the header to the footer, behind what the medium holds.
fn append_copy<M: Medium>(m: &mut M, head: &Head, r: &Records) -> Result<(), Full>
    requires { countable (solution_of head.now r.now) ≡ true }
    ensures lines { length r.now.cells.now ≡ tri (length r.now.estimates.now) → Appends (M.Source.content m.old) (M.Medium.room m.old) result (M.Source.content m.new) (M.Medium.room m.new) (copy_lines take head.now (solution_of head.now r.now)) }
    ensures kept { M.Medium.room m.new ≡ M.Medium.room m.old }
{
    append_header(m, head, r.estimates)?;
    append_block(m, b"SITE/ID", Body::Sites(r.sites))?;
    append_block(m, b"SOLUTION/EPOCHS", Body::Spans(r.spans))?;
    append_block(m, b"SOLUTION/ESTIMATE", Body::Parameters(r.estimates))?;
    append_block(m, b"SOLUTION/APRIORI", Body::Parameters(r.aprioris))?;
    append_block(m, &matrix_title(head.kind), Body::Cells(r.cells))?;
    append_line(m, b"%ENDSNX")
}

// The fair copy of these records in place of what the medium holds; refused, and nothing changed, where it has not the room.
pub fn write_copy<M: Medium>(m: &mut M, head: &Head, r: &Records) -> Result<(), Full>
    ensures { Writes (M.Source.content m.old) (M.Medium.room m.old) head.now (solution_of head.now r.now) result (M.Source.content m.new) (M.Medium.room m.new) }
{
    if !has_room(m, r) {
        return Err(Full);
    }
    m.empty();
    append_copy(m, head, r)
}
