// Number words, read and written.
ghost use Rattle.std.specs.Prelude.{◌≡◌, ℕ, ◌≤◌, ◌++◌, length, Some, decimal, MatchOption, OnOk};
ghost use Rattle.std.specs.Str.Parse.{digits_value, AllDigits};
ghost use Rattle.text.specs.Numbers.{NumberWord, Spells};

use itoa::Buffer;
use std::alloc::AllocError;

// The value of at most five digits.
fn digits(word: &[u8]) -> Option<usize>
    requires { length word.now ≤ 5 }
    ensures { MatchOption result (AllDigits 10 word.now → ⊥) (λ n. AllDigits 10 word.now × (n ≡ digits_value 10 word.now)) }
{
    word.iter().try_fold(0usize, |n, b| match *b {
        b'0'..=b'9' => Some(n * 10 + usize::from(*b - b'0')),
        _ => None,
    })
}

// The value of a number word: 0 alone, or up to five digits of which the first is another.
fn value(word: &[u8]) -> Option<usize>
    ensures { MatchOption result (NumberWord word.now → ⊥) (λ n. NumberWord word.now × (n ≡ digits_value 10 word.now)) }
{
    match word.first()? {
        b'0' if word.len() > 1 => None,
        _ if word.len() > 5 => None,
        _ => digits(word),
    }
}

// The value of a number word.
// Kept: `value` says what is computed, and `number` says it in two more ways, which follow from the first.
pub fn number(word: &[u8]) -> Option<usize>
    ensures reads { MatchOption result (NumberWord word.now → ⊥) (λ n. NumberWord word.now × (n ≡ digits_value 10 word.now)) }
    ensures spells { MatchOption result ((n : ℕ) → Spells word.now n → ⊥) (Spells word.now) }
    ensures back { (n : ℕ) → Spells word.now n → result ≡ Some n }
{
    value(word)
}

// Adds the digits of `n` to `out`.
pub fn push_number(out: &mut Vec<u8>, n: usize) -> Result<(), AllocError>
    ensures { OnOk result (out.new.items ≡ out.old.items ++ decimal n) }
{
    let mut buffer = Buffer::new();
    out.extend_from_slice(buffer.format(n).as_bytes())
}
