// A command with its argument lines, and its performance.
ghost use Rattle.std.specs.Prelude.{◌≡◌, ◌≤◌, length};
ghost use Rattle.model.specs.States.{Obeys};
ghost use Rattle.register.specs.Views.{SameSlices, view};
ghost use Rattle.worksheets.specs.Replays.{given, read_as, stated};

use crate::commands::Command;
use crate::lines::Lines;
use codes::letters::MatrixKind;
use model::counts::Sort;
use refusals::Refusal;
use register::lent::{Register, Tables};

// A call of the register as a worksheet states it.
#[derive(Clone, Copy)]
pub(crate) enum Request<'a> {
    SetHead(&'a [u8], MatrixKind),
    Put(Sort, &'a [u8]),
    Drop(Sort, &'a [u8]),
    SetCell(&'a [u8], &'a [u8], &'a [u8]),
}

// The command with the lines that it takes; or the number of the first line that is missing.
pub(crate) fn read_request<'a>(
    command: Command,
    lines: &mut Lines<'a>,
) -> Result<Request<'a>, usize>
    ensures read { read_as result lines.new ≡ given command lines.old }
    ensures shorter { length lines.new.rest.now ≤ length lines.old.rest.now }
{
    match command {
        Command::SetHead(kind) => Ok(Request::SetHead(lines.argument()?, kind)),
        Command::Put(sort) => Ok(Request::Put(sort, lines.argument()?)),
        Command::Drop(sort) => Ok(Request::Drop(sort, lines.argument()?)),
        Command::SetCell => {
            let first = lines.argument()?;
            let second = lines.argument()?;
            Ok(Request::SetCell(first, second, lines.argument()?))
        }
    }
}

impl Request<'_> {
    // Makes the call that the request states. The tables are lent at each call of a register, so they stand beside it.
    pub(crate) fn perform(self, register: &mut Register, tables: &mut Tables) -> Result<(), Refusal>
        ensures obeys { Obeys (stated self.entry) (view register.old tables.old) result (view register.new tables.new) }
        ensures slices { SameSlices tables.old tables.new }
    {
        match self {
            Request::SetHead(line, kind) => register.set_head(tables, line, kind),
            Request::Put(sort, line) => register.put_record(tables, sort, line),
            Request::Drop(sort, line) => register.drop_record(tables, sort, line),
            Request::SetCell(first, second, text) => register.set_cell(tables, first, second, text),
        }
    }
}
