// What the caller lends at each call, and what the register itself remembers.
use decimals::number::Number;
use headings::headers::Head;
use model::counts::Counts;
use records::parameters::Parameter;
use records::sites::Site;
use records::spans::Span;

// The tables of a register: a place for each record, the lower triangle of the matrix over the places of the estimates, and the
// working row, which has a number for each of those. A register keeps no reference to them: each call is handed them, so that
// the two stand side by side in the functions of this crate.
#[derive(Drop)]
pub struct Tables<'a> {
    pub sites: &'a mut [Site],
    pub spans: &'a mut [Span],
    pub estimates: &'a mut [Parameter],
    pub aprioris: &'a mut [Parameter],
    pub cells: &'a mut [Number],
    pub row: &'a mut [u32],
}

// A register: the lengths of the tables that it was made over, how many of their places are used, and the head.
#[derive(Clone, Copy)]
pub struct Register {
    pub(crate) places: Counts,
    pub(crate) used: Counts,
    pub(crate) head: Option<Head>,
}
