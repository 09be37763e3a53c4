// What is printed of a replay.
ghost use Rattle.std.specs.Prelude.{◌≡◌, ◌++◌, OnOk};
ghost use Rattle.worksheets.specs.Prints.{answer_line, unclear_line, holds_line};

use model::counts::Counts;
use refusals::Refusal;
use reports::refusal::refusal_line;
use std::alloc::AllocError;

// The answer of a call.
pub(crate) fn put_answer(out: &mut Vec<u8>, answer: Result<(), Refusal>) -> Result<(), AllocError>
    ensures { OnOk result (out.new.items ≡ out.old.items ++ answer_line answer) }
{
    match answer {
        Ok(()) => out.extend_from_slice(b"GRANTED\n"),
        Err(refusal) => out.extend_from_slice(&refusal_line(refusal)),
    }
}

// The line that ends a run before the end of its worksheet.
pub(crate) fn put_unclear(out: &mut Vec<u8>, number: usize) -> Result<(), AllocError>
    ensures { OnOk result (out.new.items ≡ out.old.items ++ unclear_line number) }
{
    let text = format!(in *out.allocator(); "NOT UNDERSTOOD LINE {number}\n")?;
    out.extend_from_slice(text.as_bytes())
}

// How many records of each sort the register holds.
pub(crate) fn put_counts(out: &mut Vec<u8>, counts: &Counts) -> Result<(), AllocError>
    ensures { OnOk result (out.new.items ≡ out.old.items ++ holds_line counts.now) }
{
    let text = format!(in *out.allocator();
        "HOLDS {} SITES {} SPANS {} ESTIMATES {} APRIORIS\n",
        counts.sites, counts.spans, counts.estimates, counts.aprioris
    )?;
    out.extend_from_slice(text.as_bytes())
}
