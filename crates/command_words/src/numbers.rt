//! Numbers among the words of a call.

ghost use Rattle.std.specs.Prelude.{◌≡◌, ◌↔◌, ◌⊎◌, ◌<◌, ◌≤◌, IsTrue, IfSome, codes, slice_index};
ghost use Rattle.command_words.specs.Numbers as rules;

/// The most workers that may be named.
pub const WORKER_LIMIT: u64 = 64;

/// The number from `least` to `most` that the word is in decimal digits without leading zeros.
pub fn number_in(word: &str, least: u64, most: u64) -> Option<u64>
    ensures is { result ≡ rules.number_in least most word.now }
    ensures bounds { IfSome result (λ number. (least ≤ number) × (number ≤ most)) }
{
    if !has_no_leading_zero(word) {
        return None;
    }
    match word.parse::<u64>() {
        Ok(number) if least <= number && number <= most => Some(number),
        _ => None,
    }
}

/// Whether the word is `0` or begins with another digit.
fn has_no_leading_zero(word: &str) -> bool
    ensures { IsTrue result ↔ ((word.now ≡ codes "0") ⊎ ((48 < slice_index word.now 0) × (slice_index word.now 0 < 58))) }
{
    match word.as_bytes() {
        [b'0'] | [b'1'..=b'9', ..] => true,
        _ => false,
    }
}
