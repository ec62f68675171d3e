//! Numbers in words.
ghost use Rattle.std.specs.Prelude.{◌≡◌, ℕ, ◌≤◌, ◌<◌, ◌^◌, ◌↔◌, true, Some, decimal, MatchOption};

use itoa::Buffer;

/// The number that the word is, if it is one.
fn parsed(word: &str) -> Option<u32>
    ensures { (n : ℕ) → n < 2 ^ 32 → word.now ≡ decimal n → result ≡ Some n }
{
    word.parse::<u32>().ok()
}

/// Whether the word is this number in decimal digits, without zeros that lead.
fn is_written(word: &str, number: u32) -> bool
    ensures { (result ≡ true) ↔ (word.now ≡ decimal number) }
{
    let mut buffer = Buffer::new();
    buffer.format(number) == word
}

/// The number from `least` to `most` that the word is in decimal digits, without zeros that lead.
pub(crate) fn number_in(word: &str, least: u32, most: u32) -> Option<u32>
    ensures { MatchOption result
        ((n : ℕ) → least ≤ n → n ≤ most → word.now ≡ decimal n → ⊥)
        (λ n. (least ≤ n) × (n ≤ most) × (word.now ≡ decimal n)) }
{
    let number = parsed(word)?;
    if number < least || number > most || !is_written(word, number) {
        return None;
    }
    Some(number)
}
