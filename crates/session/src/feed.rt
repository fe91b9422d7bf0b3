// Input that comes in chunks: each line is answered when its end has come, and of a line no more is held than decides its answer.
ghost use Rattle.std.specs.Prelude.{◌≡◌, [], ◌++◌, MatchResult, OnOk};
ghost use Rattle.session.specs.Feeding.{Fed, Finished, kept};
ghost use Rattle.session.specs.Runs.{Adds};
ghost use Rattle.text.specs.Parts.{Free};

use crate::answerer::Answerer;
use crate::held::Feed;
use std::alloc::{AllocError, Global};
use text::cut_at;

impl Feed {
    // Before the first chunk.
    pub fn new(heap: Global) -> Feed
        ensures { result.held.items ≡ [] }
    {
        let held = Vec::new(heap);
        Feed { held }
    }

    // Holds more bytes of a line; where memory is short, those held stay.
    fn hold(&mut self, more: &[u8]) -> Result<(), AllocError>
        requires { Free 10 more.now }
        ensures { MatchResult result (λ _. self.new.held.items ≡ kept (self.old.held.items ++ more.now)) (λ _. self.new.held.items ≡ self.old.held.items) }
    {
        let n = more.len().min(5001);
        self.held.extend_from_slice(&more[..n])?;
        self.held.truncate(5001);
        Ok(())
    }

    // Answers the lines that end in `chunk`: adds the answers to `out`.
    pub fn feed<T: Answerer>(
        &mut self,
        answerer: &mut T,
        chunk: &[u8],
        out: &mut Vec<u8>,
    ) -> Result<(), AllocError>
        ensures { OnOk result (Adds out.old.items out.new.items (Fed T.Answerer.answers self.old.held.items chunk.now answerer.old self.new.held.items answerer.new)) }
    {
        let mut rest = chunk;
        while let Some((front, after)) = cut_at(rest, b'\n') {
            self.hold(front)?;
            answerer.answer(self.held.as_slice(), out)?;
            self.held.clear();
            rest = after;
        }
        self.hold(rest)
    }

    // Answers the last line, where no line feed ended it.
    pub fn finish<T: Answerer>(&self, answerer: &mut T, out: &mut Vec<u8>) -> Result<(), AllocError>
        ensures { OnOk result (Adds out.old.items out.new.items (Finished T.Answerer.answers self.now.held.items answerer.old answerer.new)) }
    {
        let last = self.held.as_slice();
        if last.is_empty() {
            return Ok(());
        }
        answerer.answer(last, out)
    }
}
