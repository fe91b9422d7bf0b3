// Lines parted into their words, by the call that they name.
ghost use Rattle.std.specs.Prelude.{◌≡◌, MatchOption, ◌≢◌};
ghost use Rattle.text.specs.Words.{left};
ghost use Rattle.lines.specs.Names.{spelled};
ghost use Rattle.lines.specs.Lines.{LineOf, Parsed};

use crate::line::{FirstWord, LineFault, SessionLine};
use text::words::Words;

// How many bytes a line may have, its line feed not counted.
const LONGEST: usize = 5000;

// The first word of a line, where it is known.
fn first_word(word: &[u8]) -> Option<FirstWord>
    ensures { MatchOption result ((n : FirstWord) → word.now ≢ spelled n) (λ n. word.now ≡ spelled n) }
{
    match word {
        b"make" => Some(FirstWord::Make),
        b"set" => Some(FirstWord::Set),
        b"put" => Some(FirstWord::Put),
        b"fetch" => Some(FirstWord::Fetch),
        b"lose" => Some(FirstWord::Lose),
        b"refresh" => Some(FirstWord::Refresh),
        b"mend" => Some(FirstWord::Mend),
        _ => None,
    }
}

// The line with this first word and these words after it, where they are as many as it takes.
fn line_of(first: FirstWord, words: Words<'_>) -> Option<SessionLine<'_>>
    ensures { LineOf first (left words.entry) result }
{
    let mut words = words;
    let said = match first {
        FirstWord::Make => SessionLine::Make {
            field: words.next()?,
            store: words.next()?,
            k: words.next()?,
            a: words.next()?,
            tau: words.next()?,
            b: words.next()?,
        },
        FirstWord::Set => {
            return (!words.is_empty()).then_some(SessionLine::Set { symbols: words });
        }
        FirstWord::Put => SessionLine::Put {
            row: words.next()?,
            node: words.next()?,
            symbol: words.next()?,
        },
        FirstWord::Fetch => SessionLine::Fetch {
            row: words.next()?,
            node: words.next()?,
        },
        FirstWord::Lose => SessionLine::Lose {
            node: words.next()?,
        },
        FirstWord::Refresh => SessionLine::Refresh {
            node: words.next()?,
        },
        FirstWord::Mend => SessionLine::Mend {
            node: words.next()?,
        },
    };
    words.is_empty().then_some(said)
}

// What a line says, in the words that it has.
pub fn parse(line: &[u8]) -> Result<SessionLine<'_>, LineFault>
    ensures { Parsed line.now result }
{
    if line.len() > LONGEST {
        return Err(LineFault::TooLong);
    }
    let mut words = Words::of(line);
    let first = words.next().ok_or(LineFault::UnknownCall)?;
    let name = first_word(first.bytes).ok_or(LineFault::UnknownCall)?;
    line_of(name, words).ok_or(LineFault::WordCount)
}
