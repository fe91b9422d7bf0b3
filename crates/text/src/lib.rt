// Bytes parted at a separator: the lines of an input, the words of a line, and the numbers that words write.
#![tactic(auto)]

ghost use Rattle.std.specs.Prelude.{◌≡◌, ◌∷◌, ◌++◌, ◌==◌, MatchOption, position};
ghost use Rattle.text.specs.Parts.{Free};

pub mod lines;
pub mod numbers;
mod parts;
mod taking;
pub mod words;

// Where the first `at` stands.
fn first(bytes: &[u8], at: u8) -> Option<usize>
    ensures { result ≡ position (λ b. b == at) bytes.now }
{
    bytes.iter().position(|b| *b == at)
}

// What stands before the first `at`, and what after it, where there is one.
pub fn cut_at(bytes: &[u8], at: u8) -> Option<(&[u8], &[u8])>
    ensures { MatchOption result (Free at bytes.now) (λ p. (bytes.now ≡ p.0.now ++ at ∷ p.1.now) × Free at p.0.now) }
{
    let n = first(bytes, at)?;
    Some((&bytes[..n], &bytes[n + 1..]))
}
