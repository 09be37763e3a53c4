// Spans: when a solution at a site has observations of a technique.
ghost use Rattle.std.specs.Prelude.{◌≡◌, length};
ghost use Rattle.records.specs.Spans.{read_span, span_key_by, read_epochs, span_named, span_order, blank_span};
ghost use Rattle.records.specs.Copies.{span_key_text, epochs_text, span_text};
ghost use Rattle.records.specs.KeyOrders.{span_order_lem};

use crate::keys::{
    Between, Blank, Ignored, SolutionKey, read_solution_columns, write_solution_columns,
};
use codes::letters::{Technique, read_code};
use codes::texts::check_blank;
use fields::epochs::{Epoch, read_epoch, write_epoch};
use refusals::Fault;
use std::cmp::Ordering;
use tables::table::Record;

// What a span is known by. Techniques compare by their letters.
#[derive(Clone, Copy, PartialEq, Eq, PartialOrd, Ord, Debug)]
pub struct SpanKey {
    pub at: SolutionKey,
    pub technique: Technique,
}

#[derive(Clone, Copy)]
pub struct Span {
    pub key: SpanKey,
    pub start: Epoch,
    pub end: Epoch,
    pub mean: Epoch,
}

// Spans in the order of site, point, solution and technique. The blank span has the first technique, Combined.
impl Record for Span {
    ghost order = { span_order };

    ghost bare = { blank_span };

    ghost lawful = { span_order_lem };

    fn compare(&self, other: &Span) -> Ordering {
        self.key.cmp(&other.key)
    }

    fn blank() -> Span {
        Span {
            key: SpanKey {
                at: SolutionKey::blank(),
                technique: Technique::Combined,
            },
            start: Epoch::Open,
            end: Epoch::Open,
            mean: Epoch::Open,
        }
    }
}

// A solution's twelve columns, a column between and a technique: fourteen columns.
fn read_span_columns<B: Between>(columns: &[u8]) -> Result<SpanKey, Fault>
    requires { length columns.now ≡ 14 }
    ensures { result ≡ span_key_by B.check columns.now }
{
    let at = read_solution_columns::<B>(&columns[0..12])?;
    B::check(&columns[12..13])?;
    let technique = read_code(&columns[13..14])?;
    Ok(SpanKey { at, technique })
}

// Start, end and mean, each with a blank column before it, and blanks to the end: 65 columns.
fn read_epochs(columns: &[u8]) -> Result<(Epoch, Epoch, Epoch), Fault>
    requires { length columns.now ≡ 65 }
    ensures { result ≡ read_epochs columns.now }
{
    check_blank(&columns[0..1])?;
    let start = read_epoch(&columns[1..13])?;
    check_blank(&columns[13..14])?;
    let end = read_epoch(&columns[14..26])?;
    check_blank(&columns[26..27])?;
    let mean = read_epoch(&columns[27..39])?;
    check_blank(&columns[39..65])?;
    Ok((start, end, mean))
}

// The span of a data line's 80 columns. The first column, which says that it is one, is not looked at.
pub fn read_span(line: &[u8; 80]) -> Result<Span, Fault>
    ensures { result ≡ read_span line.now }
{
    let key = read_span_columns::<Blank>(&line[1..15])?;
    let (start, end, mean) = read_epochs(&line[15..80])?;
    Ok(Span {
        key,
        start,
        end,
        mean,
    })
}

// A blank span with the key that a data line names; only the columns of the key's codes are looked at.
pub fn read_span_key(line: &[u8; 80]) -> Result<Span, Fault>
    ensures { result ≡ span_named line.now }
{
    let key = read_span_columns::<Ignored>(&line[1..15])?;
    Ok(Span {
        key,
        ..Span::blank()
    })
}

fn write_span_columns(k: &SpanKey) -> [u8; 14]
    ensures { result ≡ span_key_text k.now }
{
    let mut out = [b' '; 14];
    out[13] = k.technique.letter();
    out[0..12].copy_from_slice(&write_solution_columns(&k.at));
    out
}

fn write_epochs(s: &Span) -> [u8; 65]
    ensures { result ≡ epochs_text s.now }
{
    let mut out = [b' '; 65];
    out[27..39].copy_from_slice(&write_epoch(&s.mean));
    out[14..26].copy_from_slice(&write_epoch(&s.end));
    out[1..13].copy_from_slice(&write_epoch(&s.start));
    out
}

// The 80 columns of a span's data line in a fair copy.
pub fn write_span(s: &Span) -> [u8; 80]
    ensures { result ≡ span_text s.now }
{
    let mut out = [b' '; 80];
    out[15..80].copy_from_slice(&write_epochs(s));
    out[1..15].copy_from_slice(&write_span_columns(&s.key));
    out
}
