// The words of a line, taken one by one.
ghost use Rattle.std.specs.Prelude.{◌≡◌, length, ◌==◌};
ghost use Rattle.text.specs.Cutting.{WordCut};
ghost use Rattle.text.specs.Words.{words, left, Takes};
ghost use Rattle.std.specs.Iterator.{at_most};

use crate::parts::Parts;
use crate::words::{Word, Words};

impl<'a> Words<'a> {
    // All words of a line, which can be cut into words in no other way.
    pub fn of(line: &'a [u8]) -> Words<'a>
        ensures all { left result ≡ words line.now }
        ensures cut { WordCut line.now }
    {
        Words {
            parts: Parts { rest: Some(line) },
            column: 1,
        }
    }

    // Takes the next word.
    // Kept: a call of its own beside `next`, which says the same as a clause.
    pub fn next_word(&mut self) -> Option<Word<'a>>
        ensures { Takes (left self.old) result (left self.new) }
    {
        let bytes = self.parts.next()?;
        let column = self.column;
        self.column += bytes.len() + 1;
        Some(Word { bytes, column })
    }

    // Whether no word is left.
    pub fn is_empty(&self) -> bool
        ensures { result ≡ (length (left self.now) == 0) }
    {
        self.parts.rest.is_none()
    }
}

impl<'a> Iterator for Words<'a> {
    type Item = Word<'a>;

    ghost next_gives = { λ s r t. Takes (left s) r (left t) };

    ghost remaining = { λ s. at_most (length (left s)) };

    fn next(&mut self) -> Option<Word<'a>> {
        self.next_word()
    }
}
