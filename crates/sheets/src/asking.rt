// What a line asks for: the read sheet of one node.
ghost use Rattle.std.specs.Prelude.{◌≡◌, [], ◌∷◌, length, MatchOption, ◌≢◌};
ghost use Rattle.text.specs.Words.{left, place};
ghost use Rattle.sheets.specs.declared.asking.AskFault.TheVariants.{Code};
ghost use Rattle.sheets.specs.Asking.{Read, Answered, ask_number};

use array::{ParameterFault, Parameters, Proposed};
use mending::NodeSheet;
use text::numbers::number;
use text::words::{Word, Words};

// The numbers of a line.
#[derive(Clone, Copy)]
pub struct Asked {
    pub proposed: Proposed,
    pub node: usize,
}

// Why a line has no sheet.
#[derive(Clone, Copy)]
pub enum AskFault {
    // There may be no such code.
    Code(ParameterFault),
    // The node is not in the array.
    Node,
    // The words are not five.
    Words,
    // A word is no number.
    Number,
}

impl AskFault {
    pub fn number(self) -> u8
        ensures { result ≡ ask_number self }
    {
        // Kept: a fault of the parameters has its own number, and the numbers of such an enum cannot be cast.
        match self {
            AskFault::Code(fault) => fault.number(),
            AskFault::Node => 17,
            AskFault::Words => 22,
            AskFault::Number => 23,
        }
    }
}

impl From<ParameterFault> for AskFault {
    ghost from_gives = { λ f r. r ≡ Code f };

    fn from(fault: ParameterFault) -> AskFault {
        AskFault::Code(fault)
    }
}

// The five words that are left, where just five are.
fn five(words: Words<'_>) -> Option<(Word<'_>, Word<'_>, Word<'_>, Word<'_>, Word<'_>)>
    ensures { MatchOption result (length (left words.entry) ≢ 5) (λ p. left words.entry ≡ place p.0 ∷ place p.1 ∷ place p.2 ∷ place p.3 ∷ place p.4 ∷ []) }
{
    let mut words = words;
    let first = words.next()?;
    let second = words.next()?;
    let third = words.next()?;
    let fourth = words.next()?;
    let fifth = words.next()?;
    words
        .is_empty()
        .then_some((first, second, third, fourth, fifth))
}

// The numbers that the words of a line write.
fn read(words: Words<'_>) -> Result<Asked, AskFault>
    ensures { Read (left words.entry) result }
{
    let (k, a, tau, b, node) = five(words).ok_or(AskFault::Words)?;
    let proposed = Proposed {
        k: number(k.bytes).ok_or(AskFault::Number)?,
        a: number(a.bytes).ok_or(AskFault::Number)?,
        tau: number(tau.bytes).ok_or(AskFault::Number)?,
        b: number(b.bytes).ok_or(AskFault::Number)?,
    };
    let node = number(node.bytes).ok_or(AskFault::Number)?;
    Ok(Asked { proposed, node })
}

// The sheet that a line asks for.
pub fn ask(line: &[u8]) -> Result<NodeSheet, AskFault>
    ensures { Answered line.now result }
{
    let Asked { proposed, node } = read(Words::of(line))?;
    let parameters = Parameters::check(proposed)?;
    if node < parameters.nodes() {
        Ok(NodeSheet::new(parameters, node))
    } else {
        Err(AskFault::Node)
    }
}
