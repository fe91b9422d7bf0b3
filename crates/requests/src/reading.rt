// What the words of a session line mean: its letters and numbers.
ghost use Rattle.std.specs.Prelude.{◌≡◌, MatchResult};
ghost use Rattle.text.specs.Numbers.{NumberWord, Spells};
ghost use Rattle.requests.specs.Meaning.{Meaning};

use crate::request::{FieldKind, Request, StoreKind};
use lines::line::{LineFault, SessionLine};
use text::numbers::number;
use text::words::Word;

// The number that a word writes.
fn number_in(word: Word<'_>) -> Result<usize, LineFault>
    ensures { MatchResult result (Spells word.entry.bytes.now) (λ f. (f ≡ LineFault.Malformed) × (NumberWord word.entry.bytes.now → ⊥)) }
{
    number(word.bytes).ok_or(LineFault::Malformed)
}

// The numbers that two words write.
fn two_numbers(first: Word<'_>, second: Word<'_>) -> Result<(usize, usize), LineFault>
    ensures { MatchResult result (λ p. Spells first.entry.bytes.now p.0 × Spells second.entry.bytes.now p.1) (λ f. (f ≡ LineFault.Malformed) × (NumberWord first.entry.bytes.now × NumberWord second.entry.bytes.now → ⊥)) }
{
    Ok((number_in(first)?, number_in(second)?))
}

// What a line's words ask for.
pub fn read<'a>(line: SessionLine<'a>) -> Result<Request<'a>, LineFault>
    ensures { Meaning line.entry result }
{
    match line {
        SessionLine::Make {
            field,
            store,
            k,
            a,
            tau,
            b,
        } => {
            let field = FieldKind::try_from(field.bytes)?;
            let store = StoreKind::try_from(store.bytes)?;
            let (k, a) = two_numbers(k, a)?;
            let (tau, b) = two_numbers(tau, b)?;
            Ok(Request::Make {
                field,
                store,
                k,
                a,
                tau,
                b,
            })
        }
        SessionLine::Set { symbols } => Ok(Request::Set { symbols }),
        SessionLine::Put { row, node, symbol } => {
            let (row, node) = two_numbers(row, node)?;
            Ok(Request::Put { row, node, symbol })
        }
        SessionLine::Fetch { row, node } => {
            let (row, node) = two_numbers(row, node)?;
            Ok(Request::Fetch { row, node })
        }
        SessionLine::Lose { node } => {
            let node = number_in(node)?;
            Ok(Request::Lose { node })
        }
        SessionLine::Refresh { node } => {
            let node = number_in(node)?;
            Ok(Request::Refresh { node })
        }
        SessionLine::Mend { node } => {
            let node = number_in(node)?;
            Ok(Request::Mend { node })
        }
    }
}
