ghost use Rattle.std.specs.Prelude.{◌≡◌, ℕ, ◌^◌, ◌<◌, Some, decimal};
ghost use Rattle.lines.specs.Decimals.{number_of, appended};

// The number with one more digit behind it, where the byte is a digit and 64 bits are enough.
fn append(number: u64, digit: u8) -> Option<u64>
    ensures { result ≡ appended number digit }
{
    match digit {
        b'0'..=b'9' => number.checked_mul(10)?.checked_add(u64::from(digit - b'0')),
        _ => None,
    }
}

/// The number that a text of decimal digits stands for; none where the text is empty, has any other byte,
/// or stands for more than 64 bits hold. Zeros in front are allowed.
// It stays beside the library's `parse`, which takes a sign; and a loop, as of `try_fold` no proof was found.
pub fn number(word: &[u8]) -> Option<u64>
    ensures { result ≡ number_of word.now }
{
    if word.is_empty() {
        return None;
    }
    let mut sum = 0;
    for b in word {
        sum = append(sum, *b)?;
    }
    Some(sum)
}

/// What is printed of a number of 64 bits is read back as that number.
pub fn decimal_is_read_back()
    ensures { (n : ℕ) → n < 2 ^ 64 → number_of (decimal n) ≡ Some n }
{}
