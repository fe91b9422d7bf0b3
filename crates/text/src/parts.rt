// The parts of bytes at a separator.
ghost use Rattle.std.specs.Prelude.{length};
ghost use Rattle.std.specs.Iterator.{at_most};
ghost use Rattle.text.specs.Walk.{to_come, Reads};

use crate::cut_at;

// The parts that are still to come: the bytes after the last separator passed, until the last part is taken.
#[derive(Clone, Copy)]
pub(crate) struct Parts<'a, const AT: u8> {
    pub(crate) rest: Option<&'a [u8]>,
}

impl<'a, const AT: u8> Iterator for Parts<'a, AT> {
    type Item = &'a [u8];

    ghost next_gives = { λ s r t. Reads (to_come AT s.rest) r (to_come AT t.rest) };

    ghost remaining = { λ s. at_most (length (to_come AT s.rest)) };

    fn next(&mut self) -> Option<&'a [u8]> {
        let rest = self.rest?;
        match cut_at(rest, AT) {
            Some((part, after)) => {
                self.rest = Some(after);
                Some(part)
            }
            None => {
                self.rest = None;
                Some(rest)
            }
        }
    }
}
