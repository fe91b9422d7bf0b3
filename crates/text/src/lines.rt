// The lines of an input.
ghost use Rattle.std.specs.Prelude.{◌≡◌, length};
ghost use Rattle.text.specs.Cutting.{LineCut};
ghost use Rattle.text.specs.Lines.{lines, todo};
ghost use Rattle.text.specs.Walk.{Reads};
ghost use Rattle.std.specs.Iterator.{at_most};

use crate::parts::Parts;

// The lines of an input that are still to come.
#[derive(Clone, Copy)]
pub struct Lines<'a> {
    parts: Parts<'a, b'\n'>,
}

impl<'a> Lines<'a> {
    // All lines of an input, which can be cut into lines in no other way.
    pub fn of(input: &'a [u8]) -> Lines<'a>
        ensures all { todo result ≡ lines input.now }
        ensures cut { LineCut input.now }
    {
        Lines {
            parts: Parts { rest: Some(input) },
        }
    }

    // Takes the next line, without its line feed.
    // Kept: a call of its own beside `next`, which says the same as a clause.
    pub fn next_line(&mut self) -> Option<&'a [u8]>
        ensures { Reads (todo self.old) result (todo self.new) }
    {
        let line = self.parts.next()?;
        // A last part with nothing in it is no line.
        if line.is_empty() && self.parts.rest.is_none() {
            return None;
        }
        Some(line)
    }
}

impl<'a> Iterator for Lines<'a> {
    type Item = &'a [u8];

    ghost next_gives = { λ s r t. Reads (todo s) r (todo t) };

    ghost remaining = { λ s. at_most (length (todo s)) };

    fn next(&mut self) -> Option<&'a [u8]> {
        self.next_line()
    }
}
