// What may be wrong with a line that should hold a row, and where.
ghost use Rattle.std.specs.Prelude.{Some};

use std::fmt;

#[derive(Clone, Copy, PartialEq, Eq, Debug)]
pub enum InputFault {
    // The byte at this column is no printable ASCII character.
    NotText { column: usize },
    // The word of this number, which begins at this column, is no symbol.
    NoSymbol { word: usize, column: usize },
    // The line has this many words, and a row has 3 to 9.
    WordCount { words: usize },
}

impl fmt::Display for InputFault {
    ghost use Rattle.row_text.specs.Faults.{fault_text};

    ghost output = { λ fault. Some (fault_text fault) };

    fn fmt<W: fmt::Write>(&self, f: &mut fmt::Formatter<W>) -> fmt::Result {
        match self {
            InputFault::NotText { column } => { write!(f, "column {column}: this byte is no text") }
            InputFault::NoSymbol { word, column } => write!(
                f,
                "word {word} at column {column}: a symbol is one of 0 to 9 or X"
            ),
            InputFault::WordCount { words } => { write!(f, "words: {words}, and a row has 3 to 9") }
        }
    }
}
