ghost use Rattle.std.specs.Prelude.{◌≡◌, ◌≤◌, IfSome};
ghost use Rattle.command_words.specs.Numbers.{number_within, number_of, digits_after, limited};

/// Returns the number from `least` to `most` that a word denotes in decimal digits, without sign or
/// leading zero; 0 is `0`. It returns `None` if the word isn't a number, or is one outside that
/// range.
pub fn number_from(word: &str, least: u64, most: u64) -> Option<u64>
    ensures number { result ≡ number_within least most word.now }
    ensures low { IfSome result (λ n. least ≤ n) }
    ensures high { IfSome result (λ n. n ≤ most) }
{
    let number = number_in(word.as_bytes(), most)?;
    if number < least {
        return None;
    }
    Some(number)
}

/// Returns the number that a word denotes, if it is at most a limit. It has decimal digits without
/// sign or leading zero; 0 is `0`.
pub fn number_in(word: &[u8], limit: u64) -> Option<u64>
    ensures number { result ≡ limited limit (number_of word.now) }
    ensures within { IfSome result (λ n. n ≤ limit) }
{
    match word {
        [] => None,
        [b'0', _, ..] => None,
        digits => digits_from(digits, limit),
    }
}

#[tactic(auto, using(crate::proofs::Digits::limited_past))]
fn digits_from(digits: &[u8], limit: u64) -> Option<u64>
    ensures number { result ≡ limited limit (digits_after 0 digits.now) }
    ensures within { IfSome result (λ n. n ≤ limit) }
{
    let mut value = 0;
    let mut rest = digits;
    while let [digit, others @ ..] = rest {
        if !digit.is_ascii_digit() {
            return None;
        }
        value = value * 10 + u128::from(*digit - b'0');
        if value > u128::from(limit) {
            return None;
        }
        rest = others;
    }
    Some(value as u64)
}
