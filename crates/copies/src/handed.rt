// The records of a solution, as they are handed over to be written.
use decimals::number::Number;
use records::parameters::Parameter;
use records::sites::Site;
use records::spans::Span;

// The records in their order, and the lower triangle of the matrix over the estimates, row after row.
#[derive(Clone, Copy)]
pub struct Records<'a> {
    pub sites: &'a [Site],
    pub spans: &'a [Span],
    pub estimates: &'a [Parameter],
    pub aprioris: &'a [Parameter],
    pub cells: &'a [Number],
}
