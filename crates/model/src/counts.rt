// The four sorts of record that a register keeps in tables, and a number for each of them.

// A sort of record. Estimates and a prioris are both parameters.
#[derive(Clone, Copy)]
pub enum Sort {
    Site,
    Span,
    Estimate,
    Apriori,
}

// A number for each sort: how many places a table has, or how many of them are used.
#[derive(Clone, Copy)]
pub struct Counts {
    pub sites: usize,
    pub spans: usize,
    pub estimates: usize,
    pub aprioris: usize,
}
