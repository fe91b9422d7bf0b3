// A whole input, read in chunks and answered as it comes.
ghost use Rattle.std.specs.Prelude.{◌^◌, ◌<◌, OnOk};
ghost use Rattle.session.specs.Streaming.{Streamed};

use crate::answerer::Answerer;
use crate::held::Feed;
use std::alloc::Global;
use std::io;
use std::io::{ErrorKind, Read, Write};

// Answers an input to its end, in chunks of at most N bytes: the answers to a chunk's lines are written before the next is read.
pub fn answer_all<T: Answerer, R: Read, W: Write, const N: usize>(
    heap: Global,
    answerer: &mut T,
    input: &mut R,
    output: &mut W,
) -> io::Result<()>
    requires some { 0 < N }
    requires fits { N < 2 ^ 63 }
    ensures { OnOk result (Streamed T.Answerer.answers (R.Read.remaining input.old) (W.Write.contents output.old) (W.Write.contents output.new) answerer.old answerer.new) }
{
    let mut feed = Feed::new(heap);
    let mut chunk = [0u8; N];
    let mut out = Vec::new(heap);
    for _ in 0..u64::MAX {
        match input.read(&mut chunk) {
            Ok(0) => {
                out.clear();
                feed.finish(answerer, &mut out)?;
                return output.write_all(out.as_slice());
            }
            Ok(n) => {
                out.clear();
                feed.feed(answerer, &chunk[..n], &mut out)?;
                output.write_all(out.as_slice())?;
            }
            Err(e) => {
                if e.kind() != ErrorKind::Interrupted {
                    return Err(e);
                }
            }
        }
    }
    Err(io::Error::from(ErrorKind::TimedOut))
}
