// What a line asks for, with its letters and numbers read. Symbol words wait for the field in use.
use text::words::{Word, Words};

// The fields that `make` can choose.
#[derive(Clone, Copy, Debug, PartialEq)]
pub enum FieldKind {
    Decimal,
    Byte,
}

// The stores that `make` can choose.
#[derive(Clone, Copy, Debug, PartialEq)]
pub enum StoreKind {
    Bank,
    Image,
}

// Kept: k, a, tau and b are words of a make, as its field and its store are.
#[derive(Clone, Copy)]
pub enum Request<'a> {
    Make {
        field: FieldKind,
        store: StoreKind,
        k: usize,
        a: usize,
        tau: usize,
        b: usize,
    },
    Set {
        symbols: Words<'a>,
    },
    Put {
        row: usize,
        node: usize,
        symbol: Word<'a>,
    },
    Fetch {
        row: usize,
        node: usize,
    },
    Lose {
        node: usize,
    },
    Refresh {
        node: usize,
    },
    Mend {
        node: usize,
    },
}
