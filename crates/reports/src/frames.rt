// What is printed of the frame of a source.
ghost use Rattle.reports.specs.FrameReport.{block_line, block_lines, block_tail, frame_lines, frame_report, last_line, title_words};
ghost use Rattle.frame.specs.Lines.{fetched};
ghost use Rattle.std.specs.Prelude.{◌≡◌, ◌++◌, take, drop, IfOk, string_bytes, OnOk};

use crate::refusal::refusal_line;
use frame::line::fetch;
use frame::walk::{Block, Frame, check};
use media::Source;
use std::alloc::{AllocError, Global};

// The first `n` items, or all where there are fewer.
pub(crate) fn front<T>(items: &[T], n: usize) -> &[T]
    ensures { result.now ≡ take n items.now }
{
    &items[..n.min(items.len())]
}

// The words of the title line that begins at byte `at`, one blank apart.
fn put_title<S: Source>(out: &mut Vec<u8>, source: &S, at: usize) -> Result<(), AllocError>
    ensures { OnOk result (out.new.items ≡ out.old.items ++ title_words (fetched (drop at (S.content source.now)))) }
{
    match fetch(source, at) {
        Ok(Some(line)) => {
            let heading = line.heading();
            out.extend_from_slice(front(&heading.text, heading.len))
        }
        _ => Ok(()),
    }
}

// The lines that a block takes and how many of them are data, as text.
fn block_tail(heap: Global, block: &Block) -> Result<String, AllocError>
    ensures { IfOk result (λ t. string_bytes t ≡ block_tail block.now) }
{
    let first = block.start.line;
    let last = block.end;
    let data = block.data_lines;
    format!(in heap; " LINES {first}-{last} DATA {data}\n")
}

// The line of a block.
fn put_block<S: Source>(out: &mut Vec<u8>, source: &S, block: &Block) -> Result<(), AllocError>
    ensures { OnOk result (out.new.items ≡ out.old.items ++ block_line (S.content source.now) block.now) }
{
    out.extend_from_slice(b"BLOCK ")?;
    put_title(out, source, block.start.byte)?;
    let tail = block_tail(*out.allocator(), block)?;
    out.extend_from_slice(tail.as_bytes())
}

// The lines of the blocks, one after another.
fn put_blocks<S: Source>(out: &mut Vec<u8>, source: &S, blocks: &[Block]) -> Result<(), AllocError>
    ensures { OnOk result (out.new.items ≡ out.old.items ++ block_lines (S.content source.now) blocks.now) }
{
    for block in blocks {
        put_block(out, source, block)?;
    }
    Ok(())
}

// The line of the whole.
fn put_last(out: &mut Vec<u8>, lines: u32) -> Result<(), AllocError>
    ensures { OnOk result (out.new.items ≡ out.old.items ++ last_line lines) }
{
    let text = format!(in *out.allocator(); "FRAME LINES {lines}\n")?;
    out.extend_from_slice(text.as_bytes())
}

// A line for each block in the file's order, and one for the whole.
pub(crate) fn put_frame<S: Source>(
    out: &mut Vec<u8>,
    source: &S,
    frame: &Frame,
) -> Result<(), AllocError>
    ensures { OnOk result (out.new.items ≡ out.old.items ++ frame_lines (S.content source.now) frame.now) }
{
    put_blocks(out, source, front(&frame.blocks, frame.count))?;
    put_last(out, frame.lines)
}

// The report of a source: a line for each block in the file's order and one for the whole, or the refusal.
pub fn frame_report<S: Source>(heap: Global, source: &S) -> Result<Vec<u8>, AllocError>
    ensures { IfOk result (λ v. v.items ≡ frame_report (S.content source.now)) }
{
    let mut out = Vec::new(heap);
    match check(source) {
        Ok(frame) => put_frame(&mut out, source, &frame)?,
        Err(refusal) => out.extend_from_slice(&refusal_line(refusal))?,
    }
    Ok(out)
}
