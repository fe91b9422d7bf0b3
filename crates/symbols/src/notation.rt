// How a symbol is written as a word, and read back.
ghost use Rattle.std.specs.Prelude.{◌≡◌, ℕ, List, ◌++◌, MatchOption, OnOk, ◌≢◌};
ghost use Rattle.symbols.specs.Words.{decimal_word, byte_word};
ghost use Rattle.symbols.specs.Spelling.{decimal_apart, byte_apart};

use byte::Byte;
use field::{Decimal, NumberedField};
use row_text::{glyph, symbol_of};
use std::alloc::AllocError;
use text::numbers::{number, push_number};

// Symbols that are written as words.
pub trait Notation: Copy {
    // The word that writes a symbol.
    ghost written: { Self → List ℕ };

    // The symbol that a word writes, where it writes one.
    fn read_symbol(word: &[u8]) -> Option<Self>
        ensures { MatchOption result ((s : Self) → word.now ≢ written s) (λ s. word.now ≡ written s) };

    // Adds the symbol's word to `out`.
    fn write_symbol(self, out: &mut Vec<u8>) -> Result<(), AllocError>
        ensures { OnOk result (out.new.items ≡ out.old.items ++ written self) };

    // No two symbols have one word.
    ghost apart: { (s t : Self) → written s ≡ written t → s ≡ t };
}

impl Notation for Decimal {
    ghost written = { decimal_word };

    ghost apart = { decimal_apart };

    fn read_symbol(word: &[u8]) -> Option<Decimal> {
        let [letter] = word else {
            return None;
        };
        symbol_of(*letter)
    }

    fn write_symbol(self, out: &mut Vec<u8>) -> Result<(), AllocError> {
        out.push(glyph(self))?;
        Ok(())
    }
}

impl Notation for Byte {
    ghost written = { byte_word };

    ghost apart = { byte_apart };

    fn read_symbol(word: &[u8]) -> Option<Byte> {
        Byte::symbol(number(word)?)
    }

    fn write_symbol(self, out: &mut Vec<u8>) -> Result<(), AllocError> {
        push_number(out, self.number())
    }
}
