//! Numbers in words.
ghost use Rattle.std.specs.Prelude.{◌≡◌, ◌≤◌, ◌<◌, ◌^◌, ◌↔◌, ℕ, true, Some, decimal, MatchOption};
ghost use Rattle.dsd_top.specs.Numbers.{number_within, IsNumberWithin};

use itoa::Buffer;

/// The number that the word is, if it is one.
fn parsed(word: &str) -> Option<u64>
    ensures { (n : ℕ) → n < 2 ^ 64 → word.now ≡ decimal n → result ≡ Some n }
{
    word.parse::<u64>().ok()
}

/// Whether the word is this number in decimal digits, without zeros that lead.
fn is_written(word: &str, number: u64) -> bool
    ensures { (result ≡ true) ↔ (word.now ≡ decimal number) }
{
    let mut buffer = Buffer::new();
    buffer.format(number) == word
}

/// The number from `least` to `most` that the word is in decimal digits, without zeros that lead.
pub fn number_within(word: &str, least: u64, most: u64) -> Option<u64>
    ensures number { result ≡ number_within least most word.now }
    ensures within { MatchOption result
        ((n : ℕ) → IsNumberWithin least most word.now n → ⊥)
        (IsNumberWithin least most word.now) }
{
    let number = parsed(word)?;
    if number < least || number > most || !is_written(word, number) {
        return None;
    }
    Some(number)
}
