// The symbols that the words of a line write.
ghost use Rattle.std.specs.Prelude.{◌≡◌};
ghost use Rattle.text.specs.Words.{left};
ghost use Rattle.symbols.specs.declared.reading.SymbolFault.TheVariants.{Memory};
ghost use Rattle.symbols.specs.Reading.{Writes};

use crate::notation::Notation;
use std::alloc::{AllocFailed, Global};
use text::words::Words;

// Why words are not read as symbols.
#[derive(Clone, Copy, Debug, PartialEq)]
pub enum SymbolFault {
    NotSymbol,
    Memory,
}

impl<T: Drop> From<AllocFailed<T>> for SymbolFault {
    ghost from_gives = { λ _ r. r ≡ Memory };

    fn from(_e: AllocFailed<T>) -> SymbolFault {
        SymbolFault::Memory
    }
}

// The symbols that words write, where each writes one and memory suffices.
pub fn symbols_of<S: Notation>(heap: Global, words: Words<'_>) -> Result<Vec<S>, SymbolFault>
    ensures { Writes S.Notation.written (left words.entry) result }
{
    let mut out = Vec::new(heap);
    for word in words {
        let symbol = S::read_symbol(word.bytes).ok_or(SymbolFault::NotSymbol)?;
        out.push(symbol)?;
    }
    Ok(out)
}
