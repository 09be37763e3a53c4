// The frame of a file: header, blocks and footer, line by line.
ghost use Rattle.std.specs.Prelude.{◌≡◌, ℕ, ◌+◌, ◌<◌, ◌≤◌, List, [], ◌∷◌, ◌++◌, Ok, length};
ghost use Rattle.frame.specs.Blocks.{frame_as};
ghost use Rattle.frame.specs.Frames.{Spacious, all_taken, at, block_of, ended, framed, has_title, is_header, opened, outcome, stepped, unread};
ghost use Rattle.frame.specs.Rules.{Exactly, Right};
ghost use Rattle.std.specs.Option.{option_copied};

use crate::heading::{Caption, Heading, is_text};
use crate::line::{Line, LineKind, fetch};
use crate::place::{LineAt, Place, is_last};
use crate::title::Title;
use media::Source;
use refusals::{Fault, Refusal};
use std::marker::Model;

// The most bytes that a source may have.
pub const LONGEST: usize = 100_000_000;

// A block: what its title line names, where that line and the one after it begin, the number of its data lines, and the
// line of its end.
#[derive(Clone, Copy)]
pub struct Block {
    pub caption: Caption,
    pub start: Place,
    pub body: Place,
    pub data_lines: u32,
    pub end: u32,
}

// The blocks of a file in its order, and how many lines it has.
#[derive(Clone, Copy)]
pub struct Frame {
    pub blocks: [Block; 26],
    pub count: usize,
    pub lines: u32,
}

const NO_BLOCK: Block = Block {
    caption: Caption {
        title: Title::FileReference,
        form: None,
    },
    start: Place { byte: 0, line: 0 },
    body: Place { byte: 0, line: 0 },
    data_lines: 0,
    end: 0,
};

// The blocks that are ended, in the file's order: a list in fixed memory.
#[derive(Clone, Copy)]
pub struct Ended {
    blocks: [Block; 26],
    count: usize,
}

impl Model for Ended {
    ghost use Rattle.std.specs.Prelude.{◌≡◌, ◌≤◌, ℕ, List, length, take};
    ghost use Rattle.std.proofs.Common.{ap₂, sym};
    ghost use Rattle.frame.specs.Places.{counted_back};
    ghost use Rattle.frame.specs.Blocks.{no_block};
    ghost use Rattle.frame.specs.Lines.{padded};
    ghost use Rattle.frame.specs.declared.walk.Block.{Block};

    ghost Value = { List Block };

    ghost view = { λ e. take e.count e.blocks };

    ghost invariant = { λ e. (e.count ≤ 26) × (e.blocks ≡ padded no_block 26 (take e.count e.blocks)) };

    ghost inverse = { λ bs. record { blocks = padded no_block 26 bs; count = length bs } };

    ghost inverse_ok = { λ e h. ap₂ (λ (bs : List Block) (n : ℕ). record { blocks = bs; count = n }) (sym h.1) (counted_back e.blocks e.count h.0 h.1) };
}

impl Ended {
    fn new() -> Ended
        ensures { result ≡ [] }
    {
        Ended {
            blocks: [NO_BLOCK; 26],
            count: 0,
        }
    }

    fn as_slice(&self) -> &[Block]
        ensures { result.now ≡ self.now }
    {
        &self.blocks[..self.count]
    }

    fn push(&mut self, block: Block)
        requires { length self.old < 26 }
        ensures { self.new ≡ self.old ++ block ∷ [] }
    {
        self.blocks[self.count] = block;
        self.count += 1;
    }

    // The frame that has these blocks.
    fn frame(&self, lines: u32) -> Frame
        ensures { result ≡ frame_as self.now lines }
    {
        Frame {
            blocks: self.blocks,
            count: self.count,
            lines,
        }
    }
}

// Where a line stands: first in the file, outside a block, or inside one, which has these words in its title.
#[derive(Clone, Copy)]
pub enum Stage {
    Start,
    Outside,
    Inside { heading: Heading, block: Block },
}

// What the lines so far came to.
#[derive(Clone, Copy)]
pub struct Progress {
    pub stage: Stage,
    pub ended: Ended,
}

impl LineAt {
    // The refusal of this line.
    fn refuse(&self, fault: Fault) -> Refusal
        ensures { result ≡ at fault self.now.place }
    {
        self.place.refuse(fault)
    }
}

impl Place {
    // The refusal at the line of this place.
    fn refuse(self, fault: Fault) -> Refusal
        ensures { result ≡ at fault self }
    {
        Refusal {
            fault,
            line: self.line,
        }
    }
}

// The block with this title; the first, where there are several.
pub fn block_of(blocks: &[Block], title: Title) -> Option<&Block>
    ensures { option_copied result ≡ block_of title blocks.now }
{
    blocks.iter().find(|block| block.caption.title == title)
}

// Whether one of the blocks has this title.
fn has_title(blocks: &[Block], title: Title) -> bool
    ensures { result ≡ has_title title blocks.now }
{
    block_of(blocks, title).is_some()
}

// Whether each block that the register takes up is there.
fn all_taken(blocks: &[Block]) -> bool
    ensures { result ≡ all_taken blocks.now }
{
    has_title(blocks, Title::SiteId)
        && has_title(blocks, Title::SolutionEpochs)
        && has_title(blocks, Title::SolutionEstimate)
        && has_title(blocks, Title::SolutionApriori)
        && has_title(blocks, Title::SolutionMatrixEstimate)
}

fn is_header(line: &Line) -> bool
    ensures { result ≡ is_header line.now }
{
    line.columns.starts_with(b"%=SNX 2.02")
}

impl Progress {
    // Before the first line.
    fn new() -> Progress
        ensures { result ≡ unread }
    {
        Progress {
            stage: Stage::Start,
            ended: Ended::new(),
        }
    }

    // The title line of a block.
    fn open(&mut self, at: &LineAt) -> Result<(), Refusal>
        ensures progress { outcome result self.new ≡ opened at.now.place self.old.ended at.now.line }
    {
        let heading = at.line.heading();
        let caption = heading
            .caption()
            .ok_or_else(|| at.refuse(Fault::WrongTitle))?;
        if has_title(self.ended.as_slice(), caption.title) {
            return Err(at.refuse(Fault::TitleTwice));
        }
        let block = Block {
            caption,
            start: at.place,
            body: at.next(),
            data_lines: 0,
            end: 0,
        };
        self.stage = Stage::Inside { heading, block };
        Ok(())
    }

    // A line that is not the last.
    fn step(&mut self, at: &LineAt) -> Result<(), Refusal>
        requires { Spacious self.old }
        ensures progress { outcome result self.new ≡ stepped at.now.place self.old at.now.line }
    {
        let kind = at
            .line
            .kind()
            .ok_or_else(|| at.refuse(Fault::UnknownLineKind))?;
        match (&mut self.stage, kind) {
            (Stage::Start, _) => {
                if !is_header(&at.line) {
                    return Err(at.refuse(Fault::NoHeaderLine));
                }
                self.stage = Stage::Outside;
                Ok(())
            }
            (_, LineKind::Comment) => Ok(()),
            (Stage::Outside, LineKind::Title) => self.open(at),
            (Stage::Inside { block, .. }, LineKind::Data) => {
                block.data_lines += 1;
                Ok(())
            }
            (Stage::Inside { heading, block }, LineKind::End) => {
                if at.line.heading().text != heading.text {
                    return Err(at.refuse(Fault::BrokenFrame));
                }
                block.end = at.place.line;
                self.ended.push(*block);
                self.stage = Stage::Outside;
                Ok(())
            }
            _ => Err(at.refuse(Fault::BrokenFrame)),
        }
    }

    // The last line.
    fn end(&self, at: &LineAt) -> Result<Frame, Refusal>
        ensures { result ≡ ended at.now.place self.now at.now.line }
    {
        at.line
            .kind()
            .ok_or_else(|| at.refuse(Fault::UnknownLineKind))?;
        match self.stage {
            Stage::Start if !is_header(&at.line) => Err(at.refuse(Fault::NoHeaderLine)),
            Stage::Outside if is_text(&at.line.columns, b"%ENDSNX") => {
                if all_taken(self.ended.as_slice()) {
                    Ok(self.ended.frame(at.place.line))
                } else {
                    Err(at.refuse(Fault::BlockMissing))
                }
            }
            _ => Err(at.refuse(Fault::BrokenFrame)),
        }
    }
}

// The pass over the lines.
fn walk_lines<S: Source>(source: &S) -> Result<Frame, Refusal>
    ensures { result ≡ framed (S.content source.now) }
{
    if source.length() > LONGEST {
        return Err(Refusal {
            fault: Fault::SourceTooLong,
            line: 0,
        });
    }
    let mut place = Place { byte: 0, line: 1 };
    let mut progress = Progress::new();
    loop {
        match fetch(source, place.byte) {
            Ok(Some(line)) => {
                let at = LineAt { place, line };
                if is_last(source, &mut place, &at) {
                    return progress.end(&at);
                }
                progress.step(&at)?;
                place = at.next();
            }
            Ok(None) => return Err(place.refuse(Fault::NoHeaderLine)),
            Err(fault) => return Err(place.refuse(fault)),
        }
    }
}

// The blocks of a source in its order, or the first fault of its frame: line by line the checks of a line, and at the footer
// that each block is there that the register takes up.
pub fn check<S: Source>(source: &S) -> Result<Frame, Refusal>
    ensures frame { result ≡ framed (S.content source.now) }
    ensures right { (f : Frame) → Exactly (result ≡ Ok f) (Right (S.content source.now) f) }
{
    walk_lines(source)
}
