// A place: a row and a node.
#[derive(Clone, Copy, PartialEq, Eq)]
pub struct Place {
    pub row: usize,
    pub node: usize,
}

// The parts of a read sheet. Only a data node's mend has more than the first.
#[derive(Clone, Copy, PartialEq, Eq)]
pub enum Part {
    First = 1,
    Second = 2,
    Third = 3,
    Fourth = 4,
}

// A place of a listing, and the part of the listing that it stands in.
#[derive(Clone, Copy, PartialEq, Eq)]
pub struct Entry {
    pub part: Part,
    pub place: Place,
}

// A symbol that was read, with its place: a record of working memory.
#[derive(Clone, Copy)]
pub struct Record<F> {
    pub place: Place,
    pub symbol: F,
}
