// Texts: kept on the left of a row of bytes that is filled up with blanks.
ghost use Rattle.std.specs.Prelude.{◌≡◌, ◌≤◌, length};
ghost use Rattle.codes.specs.Order.{lex, same_text};
ghost use Rattle.codes.specs.Text.{word, padded, read_text, filled, read_description, check_blank};

use decimals::scan::{is_blank, skip_blanks};
use refusals::Fault;
use std::cmp::Ordering;

// How many bytes come before the first blank.
fn word_length(s: &[u8]) -> usize
    ensures length { result ≡ length (word s.now) }
    ensures within { result ≤ length s.now }
{
    s.iter().position(|&c| c == b' ').unwrap_or(s.len())
}

// A text on the left of N bytes, and blanks after it.
fn left<const N: usize>(text: &[u8]) -> [u8; N]
    requires { length text.now ≤ N }
    ensures { result ≡ padded N text.now }
{
    let mut out = [b' '; N];
    out[..text.len()].copy_from_slice(text);
    out
}

// One word among blanks, of at most N bytes.
#[tactic(auto, using(crate::proofs::Words::word_front, crate::proofs::Words::word_rest))]
pub fn read_text<const N: usize>(text: &[u8]) -> Result<[u8; N], Fault>
    ensures { result ≡ read_text N text.now }
{
    let body = skip_blanks(text);
    let (word, rest) = body.split_at(word_length(body));
    if word.is_empty() || word.len() > N || !is_blank(rest) {
        return Err(Fault::WrongText);
    }
    Ok(left(word))
}

// How many bytes there are up to the last that is not blank.
fn filled_length(s: &[u8]) -> usize
    ensures length { result ≡ filled s.now }
    ensures within { result ≤ length s.now }
{
    s.iter()
        .rposition(|&c| c != b' ')
        .map_or(0, |last| last + 1)
}

// A description: blanks at both ends are dropped, it may be empty or have blanks inside.
pub fn read_description<const N: usize>(text: &[u8]) -> Result<[u8; N], Fault>
    ensures { result ≡ read_description N text.now }
{
    let body = skip_blanks(text);
    let n = filled_length(body);
    if n > N {
        return Err(Fault::WrongText);
    }
    Ok(left(&body[..n]))
}

// Columns that have to be blank.
pub fn check_blank(columns: &[u8]) -> Result<(), Fault>
    ensures { result ≡ check_blank columns.now }
{
    if is_blank(columns) {
        Ok(())
    } else {
        Err(Fault::WrongText)
    }
}

// Compares two texts byte by byte.
pub fn compare_text(a: &[u8], b: &[u8]) -> Ordering
    ensures { result ≡ lex a.now b.now }
{
    a.cmp(b)
}

// Whether two texts are the same.
pub fn same_text(a: &[u8], b: &[u8]) -> bool
    ensures { result ≡ same_text a.now b.now }
{
    a == b
}
