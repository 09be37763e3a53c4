// A whole worksheet, replayed.
ghost use Rattle.std.specs.Prelude.{◌≡◌, ◌+◌, ◌≤◌, length, IfOk, OnOk};
ghost use Rattle.register.specs.Views.{SameSlices, view};
ghost use Rattle.worksheets.specs.Commands.{read_command};
ghost use Rattle.worksheets.specs.Prints.{Replays, sheet_report};
ghost use Rattle.worksheets.specs.Replays.{Onward, lines_left, read_as};
ghost use Rattle.worksheets.specs.Sheets.{Done, begun, sheet_from, sheet_of};

use crate::commands::read_command;
use crate::lines::Lines;
use crate::prints::{put_answer, put_counts, put_unclear};
use crate::requests::{Request, read_request};
use register::lent::{Register, Tables};
use reports::refusal::refusal_line;
use std::alloc::{AllocError, Global};

// The request that begins with this line; or the number of the line that is no command, or is missing.
fn request_of<'a>(line: &[u8], lines: &mut Lines<'a>) -> Result<Request<'a>, usize>
    ensures read { read_as result lines.new ≡ begun lines.old.taken (read_command line.now) (lines_left lines.old) (λ k. sheet_from (lines.old.taken + 1) k (lines_left lines.old)) }
    ensures shorter { length lines.new.rest.now ≤ length lines.old.rest.now }
{
    let command = read_command(line).ok_or(lines.taken)?;
    read_request(command, lines)
}

// What is printed of the commands, up to the end of the worksheet or a line that is not understood.
fn replay_lines(
    out: &mut Vec<u8>,
    register: &mut Register,
    tables: &mut Tables,
    sheet: &[u8],
) -> Result<(), AllocError>
    ensures onward { OnOk result (Onward (view register.old tables.old) (sheet_of sheet.now) out.old.items (view register.new tables.new) Done out.new.items) }
    ensures slices { SameSlices tables.old tables.new }
{
    let mut lines = Lines::new(sheet);
    while let Some(line) = lines.next_line() {
        match request_of(line, &mut lines) {
            Ok(request) => put_answer(out, request.perform(register, tables))?,
            Err(number) => return put_unclear(out, number),
        }
    }
    Ok(())
}

// What is printed when the worksheet is replayed on the register: the answer of each call, the line that was not understood,
// if there is one, and what the register then holds.
pub fn replay(
    heap: Global,
    register: &mut Register,
    tables: &mut Tables,
    sheet: &[u8],
) -> Result<Vec<u8>, AllocError>
    ensures replays { IfOk result (λ v. Replays (sheet_of sheet.now) (view register.old tables.old) v.items (view register.new tables.new)) }
    ensures slices { SameSlices tables.old tables.new }
{
    let mut out = Vec::new(heap);
    replay_lines(&mut out, register, tables, sheet)?;
    put_counts(&mut out, &register.counts())?;
    Ok(out)
}

// What is printed when the worksheet is replayed on a new register over these tables; or the refusal to make one.
pub fn sheet_report(heap: Global, tables: &mut Tables, sheet: &[u8]) -> Result<Vec<u8>, AllocError>
    ensures report { IfOk result (λ v. v.items ≡ sheet_report tables.old sheet.now) }
    ensures slices { SameSlices tables.old tables.new }
{
    match Register::make(tables) {
        Ok(mut register) => replay(heap, &mut register, tables, sheet),
        Err(refusal) => refusal_line(refusal).to_vec(heap),
    }
}
