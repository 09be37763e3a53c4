// What a title line and an end line say after their sign.
ghost use Rattle.std.specs.Prelude.{◌≡◌, ℕ, ◌+◌, ◌<◌, ◌≤◌, true, List, [], ◌∷◌, ◌++◌, length};
ghost use Rattle.frame.specs.Headings.{adds_by, caption_adding, caption_of, first_word_is, form_of, headed, heading_of, is_text, spelled, title_named};

use crate::line::Line;
use crate::title::{TITLES, Title};
use codes::letters::MatrixKind;
use decimals::scan::is_blank;
use triangle::row::Side;

// The words after the sign, one blank apart, padded with blanks; and how long they are before that.
#[derive(Clone, Copy)]
pub struct Heading {
    pub text: [u8; 79],
    pub len: usize,
}

// Which triangle of the symmetric matrix a block states, and what its cells are.
#[derive(Clone, Copy)]
pub struct MatrixForm {
    pub side: Side,
    pub kind: MatrixKind,
}

// What a heading names: a title, and the form of the matrix where the title is that of the estimates' matrix.
#[derive(Clone, Copy)]
pub struct Caption {
    pub title: Title,
    pub form: Option<MatrixForm>,
}

// What may stand in a heading after its first word.
#[derive(Clone, Copy)]
pub enum Additions {
    Nothing,
    Form,
    Anything,
}

impl Heading {
    // One byte more.
    fn push(&mut self, b: u8)
        requires { self.old.len < 79 }
        ensures text { (xs : List ℕ) → self.old ≡ headed xs → self.new ≡ headed (xs ++ b ∷ []) }
        ensures len { self.new.len ≡ self.old.len + 1 }
    {
        self.text[self.len] = b;
        self.len += 1;
    }

    // One byte of a word more, after a gap or not.
    fn extend(&mut self, gap: bool, b: u8)
        requires { self.old.len + length (spelled gap b) ≤ 79 }
        ensures { (xs : List ℕ) → self.old ≡ headed xs → self.new ≡ headed (xs ++ spelled gap b) }
    {
        if gap {
            self.push(b' ');
        }
        self.push(b);
    }
}

impl Line {
    // The words after the line's first column.
    pub fn heading(&self) -> Heading
        ensures { result ≡ heading_of self.now }
    {
        let mut heading = Heading {
            text: [b' '; 79],
            len: 0,
        };
        let mut gap = false;
        for b in &self.columns[1..80] {
            if *b == b' ' {
                gap = true;
            } else {
                heading.extend(gap, *b);
                gap = false;
            }
        }
        heading
    }
}

// Whether `text` is `word` and then blanks.
pub(crate) fn is_text(text: &[u8], word: &[u8]) -> bool
    ensures { result ≡ is_text word.now text.now }
{
    text.strip_prefix(word).is_some_and(|rest| is_blank(rest))
}

// Whether the first word of `text` is `word`: a blank follows it.
fn has_first_word(text: &[u8], word: &[u8]) -> bool
    ensures { result ≡ first_word_is word.now text.now }
{
    text.strip_prefix(word)
        .is_some_and(|rest| rest.starts_with(b" "))
}

// The title whose name is the first word of `text`.
fn title_named(text: &[u8]) -> Option<Title>
    ensures { result ≡ title_named text.now }
{
    TITLES
        .iter()
        .find(|title| has_first_word(text, title.name()))
        .copied()
}

// The forms of a matrix, as its title spells them: L or U, then CORR, COVA or INFO.
const FORMS: [(&[u8], Side, MatrixKind); 6] = [
    (b"L CORR", Side::Lower, MatrixKind::Correlation),
    (b"L COVA", Side::Lower, MatrixKind::Covariance),
    (b"L INFO", Side::Lower, MatrixKind::Information),
    (b"U CORR", Side::Upper, MatrixKind::Correlation),
    (b"U COVA", Side::Upper, MatrixKind::Covariance),
    (b"U INFO", Side::Upper, MatrixKind::Information),
];

// The form of a matrix.
fn matrix_form(text: &[u8]) -> Option<MatrixForm>
    ensures { result ≡ form_of text.now }
{
    let (_, side, kind) = FORMS.iter().find(|(words, _, _)| is_text(text, words))?;
    Some(MatrixForm {
        side: *side,
        kind: *kind,
    })
}

impl Title {
    // What a heading of this title may add to its name.
    pub fn additions(self) -> Additions
        ensures { adds_by self ≡ result }
    {
        match self {
            Title::SiteId => Additions::Nothing,
            Title::SolutionEpochs => Additions::Nothing,
            Title::SolutionEstimate => Additions::Nothing,
            Title::SolutionApriori => Additions::Nothing,
            Title::SolutionMatrixEstimate => Additions::Form,
            _ => Additions::Anything,
        }
    }
}

// What a title names with these words after it; none where they do not go with it.
fn caption_with(title: Title, rest: &[u8]) -> Option<Caption>
    ensures { result ≡ caption_adding title rest.now (adds_by title) }
{
    match title.additions() {
        Additions::Anything => Some(Caption { title, form: None }),
        Additions::Nothing => is_blank(rest).then_some(Caption { title, form: None }),
        Additions::Form => {
            let form = Some(matrix_form(rest)?);
            Some(Caption { title, form })
        }
    }
}

impl Heading {
    // What the heading names; none where its first word is no title, or its further words do not go with it.
    pub fn caption(&self) -> Option<Caption>
        ensures { result ≡ caption_of self.now.text }
    {
        let title = title_named(&self.text)?;
        caption_with(title, &self.text[title.name().len() + 1..])
    }
}
