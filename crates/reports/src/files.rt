// What is printed of a file: its header, and then its frame.
ghost use Rattle.frame.specs.Lines.{fetched};
ghost use Rattle.reports.specs.FileReport.{after_header, data_lines_of, file_report, header_at, header_in, header_line};
ghost use Rattle.std.specs.Prelude.{◌≡◌, ◌++◌, take, IfOk, OnOk};

use crate::frames::{front, put_frame};
use crate::refusal::refusal_line;
use frame::line::fetch;
use frame::title::Title;
use frame::walk::{Block, Frame, block_of, check};
use headings::headers::{Header, read_header, write_header};
use media::Source;
use refusals::{Fault, Refusal};
use std::alloc::{AllocError, Global};

// The number of data lines of the block with this title; 0 where there is none.
fn data_lines_of(blocks: &[Block], title: Title) -> u32
    ensures { result ≡ data_lines_of title blocks.now }
{
    block_of(blocks, title).map_or(0, |block| block.data_lines)
}

// The header on the first line.
fn first_header<S: Source>(source: &S) -> Result<(Header, u32), Fault>
    ensures { result ≡ header_at (fetched (S.content source.now)) }
{
    match fetch(source, 0) {
        Ok(Some(line)) => read_header(&line.columns),
        _ => Err(Fault::NoHeaderLine),
    }
}

// The header of a file with these blocks: its count is that of the data lines with estimates.
fn header_in<S: Source>(source: &S, blocks: &[Block]) -> Result<(Header, u32), Fault>
    ensures { result ≡ header_in (S.content source.now) blocks.now }
{
    let (header, count) = first_header(source)?;
    if count == data_lines_of(blocks, Title::SolutionEstimate) {
        Ok((header, count))
    } else {
        Err(Fault::OutOfStep)
    }
}

// The line of the header: the columns from the first agency to the constraint, as a fair copy has them.
fn put_header(out: &mut Vec<u8>, header: &Header, count: u32) -> Result<(), AllocError>
    ensures { OnOk result (out.new.items ≡ out.old.items ++ header_line (header.now, count)) }
{
    out.extend_from_slice(b"HEADER ")?;
    let line = write_header(header, count, &[None; 6]);
    out.extend_from_slice(&line[11..67])?;
    out.extend_from_slice(b"\n")
}

// The lines of a frame that is right, with the header before them; or only the header's fault, which stands in line 1.
fn put_file<S: Source>(out: &mut Vec<u8>, source: &S, frame: &Frame) -> Result<(), AllocError>
    ensures { OnOk result (out.new.items ≡ out.old.items ++ after_header (S.content source.now) frame.now (header_in (S.content source.now) (take frame.now.count frame.now.blocks))) }
{
    match header_in(source, front(&frame.blocks, frame.count)) {
        Ok((header, count)) => {
            put_header(out, &header, count)?;
            put_frame(out, source, frame)
        }
        Err(fault) => out.extend_from_slice(&refusal_line(Refusal { fault, line: 1 })),
    }
}

// The report of a file: the fields of its header, a line for each block in the file's order and one for the whole; or the
// refusal.
pub fn file_report<S: Source>(heap: Global, source: &S) -> Result<Vec<u8>, AllocError>
    ensures { IfOk result (λ v. v.items ≡ file_report (S.content source.now)) }
{
    let mut out = Vec::new(heap);
    match check(source) {
        Ok(frame) => put_file(&mut out, source, &frame)?,
        Err(refusal) => out.extend_from_slice(&refusal_line(refusal))?,
    }
    Ok(out)
}
