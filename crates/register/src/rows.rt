// Records put into a table and dropped from it, with the count of the used places.
ghost use Rattle.tables.specs.Rows.{put_answer, put_rows, drop_answer, drop_rows, plain};
ghost use Rattle.std.specs.Result.{result_unwrap_or};
ghost use Rattle.std.specs.Prelude.{◌≡◌};

use refusals::Fault;
use tables::table::{Record, drop_in, put_in};

// Puts a record into its table. Of an estimate these are the rows alone: the cells are moved by steps of their own.
pub(crate) fn put_row<R: Record>(rows: &mut [R], used: &mut usize, r: R) -> Result<(), Fault>
    ensures answer { result ≡ plain (put_answer R.Record.order r used.old rows.old) }
    ensures rows { rows.new ≡ put_rows R.Record.order r used.old rows.old }
    ensures used { used.new ≡ result_unwrap_or (put_answer R.Record.order r used.old rows.old) used.old }
{
    *used = put_in(rows, *used, r)?;
    Ok(())
}

// Drops the record of r's key from its table.
pub(crate) fn drop_row<R: Record>(rows: &mut [R], used: &mut usize, r: &R) -> Result<(), Fault>
    ensures answer { result ≡ plain (drop_answer R.Record.order r.now used.old rows.old) }
    ensures rows { rows.new ≡ drop_rows R.Record.order R.Record.bare r.now used.old rows.old }
    ensures used { used.new ≡ result_unwrap_or (drop_answer R.Record.order r.now used.old rows.old) used.old }
{
    *used = drop_in(rows, *used, r)?;
    Ok(())
}
