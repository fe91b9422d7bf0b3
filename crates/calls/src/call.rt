// The calls of an engine, their answers and their faults.
use sheet::Part;
use store::StoreFault;

// The names of the calls.
#[derive(Clone, Copy, PartialEq, Eq)]
pub enum CallName {
    Set,
    Put,
    Fetch,
    Lose,
    Refresh,
    Mend,
}

// Kept: codes and stores take a row and a node apart, so a place would be taken apart again in each call.
// A call: set has all symbols row by row, put a row, a data node and a symbol, fetch a row and a data node, the others a node.
#[derive(Clone, Copy)]
pub enum Call<'c, F> {
    Set(&'c [F]),
    Put(usize, usize, F),
    Fetch(usize, usize),
    Lose(usize),
    Refresh(usize),
    Mend(usize),
}

// Kept: an answer is taken apart at once, so its count and its symbol stand in it without a `Found`.
// What an accepted call answers: set, put and mend their count, fetch its count and the symbol, lose and refresh the sum cleared.
#[derive(Clone, Copy)]
pub enum Answer<F> {
    Counted(usize),
    Fetched(usize, F),
    Cleared(u32),
}

// A symbol, and how many places were read for it.
#[derive(Clone, Copy)]
pub struct Found<F> {
    pub count: usize,
    pub symbol: F,
}

// A place of a call's sheet that the store declines, with the part of the sheet that it stands in.
#[derive(Clone, Copy)]
pub struct SheetFault {
    pub call: CallName,
    pub part: Part,
    pub fault: StoreFault,
}

// Why a call is declined.
#[derive(Clone, Copy)]
pub enum Reason {
    SmallField,
    SmallStore,
    OutOfRange,
    WrongLength,
    ShortMemory,
    NotLost,
    Sheet(SheetFault),
}

// A declined call: its name and why.
#[derive(Clone, Copy)]
pub struct CallFault {
    pub call: CallName,
    pub reason: Reason,
}
