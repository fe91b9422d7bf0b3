// A session line, as the words that it is made of.
use text::words::{Word, Words};

// Kept: names of their own beside those of the calls, since make is a first word and no call of an engine.
// The first words of lines.
#[derive(Clone, Copy)]
pub enum FirstWord {
    Make,
    Set,
    Put,
    Fetch,
    Lose,
    Refresh,
    Mend,
}

// Kept: words and what they ask for are two types, since a line can have its words and still ask for nothing.
// The calls, each with the words that follow its name.
#[derive(Clone, Copy)]
pub enum SessionLine<'a> {
    Make {
        field: Word<'a>,
        store: Word<'a>,
        k: Word<'a>,
        a: Word<'a>,
        tau: Word<'a>,
        b: Word<'a>,
    },
    Set {
        symbols: Words<'a>,
    },
    Put {
        row: Word<'a>,
        node: Word<'a>,
        symbol: Word<'a>,
    },
    Fetch {
        row: Word<'a>,
        node: Word<'a>,
    },
    Lose {
        node: Word<'a>,
    },
    Refresh {
        node: Word<'a>,
    },
    Mend {
        node: Word<'a>,
    },
}

// The rules that a line can break, in the order in which they are checked.
#[derive(Clone, Copy, Debug, PartialEq)]
pub enum LineFault {
    TooLong,
    UnknownCall,
    WordCount,
    Malformed,
}
